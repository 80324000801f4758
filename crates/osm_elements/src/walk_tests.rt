ghost use Rattle.std.specs.Prelude.{⊤};

use crate::tests::{MIXED, REASONS};
use crate::{AnyElement, ElementTaker, WalkErr, walk_block};
use std::test::Fail;
use tb_types::{Kind, Why};

/// Keeps the ids of elements and the number of their tags, as far as there is room for them.
#[derive(Drop)]
struct First {
    ids: Vec<(i64, usize)>,
    room: usize,
}

/// Why an element isn't kept.
#[derive(Clone, Copy, Debug, PartialEq, Eq)]
enum Full {
    Room,
    Memory,
}

impl ElementTaker for First {
    type Stop = Full;

    ghost steps = { λ _ _ _. ⊤ };

    ghost stops = { λ _ _ _ _. ⊤ };

    fn make_room(&mut self, _kind: Kind, _count: usize) -> Result<(), Full> {
        Ok(())
    }

    fn take(&mut self, element: AnyElement<'_>) -> Result<(), Full> {
        let (id, tags) = match element {
            AnyElement::Node(id, _, tags) => (id, tags),
            AnyElement::Way(id, tags, _) => (id, tags),
            AnyElement::Relation(id, tags, _) => (id, tags),
        };
        if self.room == 0 {
            return Err(Full::Room);
        }
        match self.ids.push((id.0, tags.len())) {
            Ok(()) => {}
            Err(_) => return Err(Full::Memory),
        }
        self.room -= 1;
        Ok(())
    }

    ghost steps_none = { λ _. tt };

    ghost steps_on = { λ _ _ _ _ _ _ _. tt };

    ghost stops_after = { λ _ _ _ _ _ _ _ _. tt };
}

/// The ids of the mixed block's elements in their order, each with the number of its tags.
const IDS: [(i64, usize); 7] = [(-4, 1), (10, 1), (11, 1), (12, 0), (3, 1), (-9, 0), (8, 0)];

#[test]
fn a_taker_is_given_a_prefix(rt: HostRuntime) -> Result<(), Fail> {
    for room in 0..9 {
        let mut first = First {
            ids: Vec::new(rt.alloc()),
            room,
        };
        let got = walk_block(rt.alloc(), MIXED, &mut first);
        let want = if room < IDS.len() {
            Err(WalkErr::Taker(Full::Room))
        } else {
            Ok(())
        };
        assert!(rt; got == want, "{got:?} with room for {room}");
        assert!(rt; first.ids.len() == room.min(IDS.len()));
        for (id, want) in first.ids.as_slice().iter().zip(IDS.iter()) {
            assert!(rt; id.0 == want.0 && id.1 == want.1, "{id:?}");
        }
    }
    Ok(())
}

#[test]
fn a_walk_has_the_first_reason(rt: HostRuntime) -> Result<(), Fail> {
    for (raw, want) in REASONS {
        let mut first = First {
            ids: Vec::new(rt.alloc()),
            room: 1,
        };
        let got = match walk_block(rt.alloc(), raw, &mut first) {
            Ok(()) => None,
            Err(WalkErr::Bad(why)) => Some(why),
            Err(WalkErr::Memory) => Some(Why::Cut),
            Err(WalkErr::Taker(_)) => Some(Why::Cut),
        };
        assert!(rt; got == want, "{got:?} of {raw:?}");
    }
    Ok(())
}
