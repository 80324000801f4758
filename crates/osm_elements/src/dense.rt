ghost use Rattle.std.specs.Prelude.{◌≡◌, length, map, min};
ghost use Rattle.osm_elements.specs.Reasons.{Gives};
ghost use Rattle.osm_elements.specs.Lists.{seen_lists};
ghost use Rattle.osm_elements.specs.DenseLists.{group_lists, AreSummed, NotesFour, checked};
ghost use Rattle.osm_elements.specs.Words.{seen_words};

use crate::fault::BlockErr;
use crate::message::{next_field, put_numbers};
use crate::numbers::{DENSE_IDS, DENSE_TAGS, GROUP_DENSE, NODE_LAT, NODE_LON};
use crate::runs::check_runs;
use crate::sums::Sums;
use crate::walk::next_body;
use crate::word::Word;
use std::alloc::Global;
use tb_types::Why;

/// The lists of dense nodes: place by place an id, a latitude and a longitude in the block's unit. The pairs of their
/// tags are a run for each node, or none at all.
#[derive(Drop)]
pub(crate) struct Dense {
    pub ids: Sums<i64>,
    pub lats: Sums<i64>,
    pub lons: Sums<i64>,
    pub pairs: Vec<u64>,
}

impl Dense {
    pub fn new(alloc: Global) -> Dense {
        Dense {
            ids: Sums::new(alloc),
            lats: Sums::new(alloc),
            lons: Sums::new(alloc),
            pairs: Vec::new(alloc),
        }
    }

    /// How many places all lists have.
    pub fn places(&self) -> usize
        ensures { result ≡ min (min (length self.now.ids.items.items) (length self.now.lats.items.items)) (length self.now.lons.items.items) }
    {
        self.ids
            .items
            .len()
            .min(self.lats.items.len())
            .min(self.lons.items.len())
    }

    /// Makes these the lists of the dense nodes of a group, and checks that they belong together.
    pub fn find(&mut self, strings: &[Word<'_>], group: &[u8]) -> Result<(), BlockErr>
        ensures { Gives (λ _. seen_lists self.new) result (group_lists (seen_words strings.now) group.now) }
    {
        self.read(group)?;
        self.check(strings)
    }

    // Checks that the lists belong together, and the runs and sums.
    fn check(&self, strings: &[Word<'_>]) -> Result<(), BlockErr>
        ensures { Gives (λ _. seen_lists self.now) result (checked (seen_words strings.now) self.now) }
    {
        let nodes = self.ids.items.len();
        if nodes != self.lats.items.len() || nodes != self.lons.items.len() {
            return Err(BlockErr::Bad(Why::Uneven));
        }
        check_runs(strings, nodes, &self.pairs)?;
        self.ids.check()?;
        self.lats.check()?;
        self.lons.check()?;
        Ok(())
    }

    // Reads the messages of a group, one after another.
    fn read(&mut self, group: &[u8]) -> Result<(), BlockErr>
        ensures { AreSummed self.new result group.now }
    {
        self.ids.clear();
        self.lats.clear();
        self.lons.clear();
        self.pairs.clear();
        let mut at = 0;
        while let Some((message, behind)) = next_body(GROUP_DENSE, group, at)? {
            self.put(message)?;
            at = behind;
        }
        Ok(())
    }

    // Adds what a message has.
    fn put(&mut self, message: &[u8]) -> Result<(), BlockErr>
        ensures { NotesFour self.old self.new result message.now }
    {
        let mut at = 0;
        while let Some(field) = next_field(message, at)? {
            self.ids.put_field(DENSE_IDS, &field)?;
            self.lats.put_field(NODE_LAT, &field)?;
            self.lons.put_field(NODE_LON, &field)?;
            put_numbers(&mut self.pairs, DENSE_TAGS, &field)?;
            at = field.next;
        }
        Ok(())
    }
}
