ghost use Rattle.std.specs.Prelude.{◌≡◌, ℕ, ◌<◌, ◌≤◌, ◌∷◌, length, slice_index_or, take, drop};
ghost use Rattle.sorted_lists.specs.Grouping.{grouped_by};

/// What has a class, a number by which neighbours are grouped, such as an item with its tile.
pub trait Classed {
    ghost class_of: { Self → ℕ };

    fn class(&self) -> u64
        ensures { result ≡ class_of self.now };
}

/// How many items the first group has: those from the first on that have its class, up to the
/// first that doesn't.
pub fn group_len<T: Classed>(items: &[T]) -> usize
    requires { 0 < length items.now }
    ensures some { 0 < result }
    ensures within { result ≤ length items.now }
    ensures group { (d : T) → grouped_by T.class_of items.now
        ≡ (T.class_of (slice_index_or items.now 0 d), take result items.now) ∷ grouped_by T.class_of (drop result items.now) }
{
    let class = items[0].class();
    for len in 1..items.len() {
        if items[len].class() != class {
            return len;
        }
    }
    items.len()
}
