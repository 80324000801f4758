//! Room that serves one element after another.

ghost use Rattle.std.specs.Prelude.{◌≡◌, []};

use crate::dense::Dense;
use crate::element::Member;
use crate::sums::Sums;
use crate::tag_list::TagList;
use std::alloc::Global;
use tb_types::OsmId;

/// Numbers of an element's message as they stand: the indexes of keys and values, and the kinds of members.
#[derive(Drop)]
pub(crate) struct Numbers {
    pub keys: Vec<u64>,
    pub values: Vec<u64>,
    pub kinds: Vec<u64>,
}

impl Numbers {
    fn new(alloc: Global) -> Numbers {
        Numbers {
            keys: Vec::new(alloc),
            values: Vec::new(alloc),
            kinds: Vec::new(alloc),
        }
    }

    /// Forgets all numbers. Their room stays.
    pub fn clear(&mut self)
        ensures keys { self.new.keys.items ≡ [] }
        ensures values { self.new.values.items ≡ [] }
        ensures kinds { self.new.kinds.items ≡ [] }
    {
        self.keys.clear();
        self.values.clear();
        self.kinds.clear();
    }
}

/// What is read of an element before it is given.
#[derive(Drop)]
pub(crate) struct Room<'a> {
    pub numbers: Numbers,
    pub tags: TagList<'a>,
    pub refs: Sums<OsmId>,
    pub ids: Sums<i64>,
    pub members: Vec<Member>,
    pub dense: Dense,
}

impl<'a> Room<'a> {
    pub fn new(alloc: Global) -> Room<'a> {
        Room {
            numbers: Numbers::new(alloc),
            tags: TagList::new(alloc),
            refs: Sums::new(alloc),
            ids: Sums::new(alloc),
            members: Vec::new(alloc),
            dense: Dense::new(alloc),
        }
    }
}
