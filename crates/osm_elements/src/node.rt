ghost use Rattle.std.specs.Prelude.{◌≡◌, map};
ghost use Rattle.osm_elements.specs.Reasons.{Gives};
ghost use Rattle.osm_elements.specs.Elements.{node, node_of};
ghost use Rattle.osm_elements.specs.Numbered.{node_numbers};
ghost use Rattle.osm_elements.specs.TagRefs.{seen_tags};
ghost use Rattle.osm_elements.specs.Words.{seen_words};

use crate::common::require;
use crate::fault::BlockErr;
use crate::granularity::Granularity;
use crate::message::{later_number, next_field, put_numbers};
use crate::numbers::{ELEMENT_ID, ELEMENT_KEYS, ELEMENT_VALUES, NODE_LAT, NODE_LON};
use crate::room::Numbers;
use crate::tag_list::TagList;
use crate::tags::find_tags;
use crate::word::Word;
use tb_types::{LatLon, OsmId};
use tb_wire::unzigzag;

/// The numbers of a node that stand by themselves.
#[derive(Clone, Copy, Debug, PartialEq, Eq)]
pub(crate) struct NodeNumbers {
    pub id: Option<u64>,
    pub lat: Option<u64>,
    pub lon: Option<u64>,
}

/// The id and the location of the node of a message, and its tags.
#[tactic(auto, using(crate::proofs::Numbering::node_of_read))]
pub(crate) fn find_node<'a>(
    numbers: &mut Numbers,
    tags: &mut TagList<'a>,
    strings: &[Word<'a>],
    granularity: Granularity,
    body: &[u8],
) -> Result<(OsmId, Option<LatLon>), BlockErr>
    ensures { Gives (λ found. node found.0 found.1 (seen_tags tags.new.tags.items)) result (node_of (seen_words strings.now) granularity body.now) }
{
    let read = read_node(numbers, body)?;
    let id = require(read.id)?;
    let lat = require(read.lat)?;
    let lon = require(read.lon)?;
    find_tags(tags, strings, &numbers.keys, &numbers.values)?;
    let at = granularity.place(unzigzag(lat), unzigzag(lon));
    Ok((OsmId(unzigzag(id)), at))
}

// The numbers of the message of a node.
fn read_node(numbers: &mut Numbers, body: &[u8]) -> Result<NodeNumbers, BlockErr>
    ensures { Gives (λ n. (n.id, numbers.new.keys.items, numbers.new.values.items, n.lat, n.lon)) result (node_numbers body.now) }
{
    numbers.clear();
    let mut id = None;
    let mut lat = None;
    let mut lon = None;
    let mut at = 0;
    while let Some(field) = next_field(body, at)? {
        id = later_number(id, ELEMENT_ID, &field)?;
        put_numbers(&mut numbers.keys, ELEMENT_KEYS, &field)?;
        put_numbers(&mut numbers.values, ELEMENT_VALUES, &field)?;
        lat = later_number(lat, NODE_LAT, &field)?;
        lon = later_number(lon, NODE_LON, &field)?;
        at = field.next;
    }
    Ok(NodeNumbers { id, lat, lon })
}
