ghost use Rattle.std.specs.Prelude.{◌≡◌};

use super::*;

/// A pair of a class and a name.
#[derive(Clone, Copy, Debug)]
struct Named {
    class: u64,
    name: char,
}

impl Classed for Named {
    ghost class_of = { λ named. named.class };

    fn class(&self) -> u64 {
        self.class
    }
}

fn item(class: u64, name: char) -> Named {
    Named { class, name }
}

#[test]
fn neighbours_are_taken_group_by_group(rt: HostRuntime) {
    let items = [item(4, 'a'), item(4, 'b'), item(6, 'c'), item(4, 'd')];
    assert!(rt; group_len(&items) == 2);
    assert!(rt; group_len(&items[1..]) == 1);
    assert!(rt; group_len(&items[2..]) == 1);
    assert!(rt; group_len(&items[3..]) == 1);
    assert!(rt; group_len(&[item(0, 'e'), item(0, 'f'), item(0, 'g')]) == 3);
}

#[test]
fn laws_hold_at_any_types() {
    sorting_laws::<Named>();
    key_laws::<Named, u64>();
    bag_laws::<Named, u64, char>();
    number_laws();
    grouping_laws::<Named>();
    merging_laws::<Named>();
    map_laws::<Named, char>();
    worked_lists();
}
