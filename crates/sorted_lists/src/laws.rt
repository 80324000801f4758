ghost use Rattle.sorted_lists.specs.BagLaws.{BagLaws};
ghost use Rattle.sorted_lists.specs.GroupingLaws.{GroupingLaws};
ghost use Rattle.sorted_lists.specs.KeyLaws.{KeyLaws};
ghost use Rattle.sorted_lists.specs.MapLaws.{MapLaws};
ghost use Rattle.sorted_lists.specs.MergingLaws.{MergingLaws};
ghost use Rattle.sorted_lists.specs.NumberLaws.{NumberLaws};
ghost use Rattle.sorted_lists.specs.SortingLaws.{SortingLaws};

/// The laws of `sorted_by`, for elements and tests of any type.
pub fn sorting_laws<T>()
    ensures { SortingLaws T }
{}

/// The laws of orders by keys and by ranks.
pub fn key_laws<T, K>()
    ensures { KeyLaws T K }
{}

/// The laws of lists with the same elements.
pub fn bag_laws<A, B, T>()
    ensures { BagLaws A B T }
{}

/// The laws of lists of numbers.
pub fn number_laws()
    ensures { NumberLaws }
{}

/// The laws of `grouped_by`, and of groups that are told one by one.
pub fn grouping_laws<T>()
    ensures { GroupingLaws T }
{}

/// The laws of `merged` and of one step of a merge of many lists.
pub fn merging_laws<T>()
    ensures { MergingLaws T }
{}

/// The laws of elements that are made into others.
pub fn map_laws<T, U>()
    ensures { MapLaws T U }
{}
