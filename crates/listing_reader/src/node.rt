// The line of a node.
ghost use Rattle.listing_reader.specs.Line.{ReadsHeading, ReadsEnd, ReadsChildren, ReadsLine};

use crate::number::{byte_at, decimal_at, spaced_decimal_at, spaced_hex_at};
use crate::word::LINE_FEED;
use arena::{DagNode, FLAGS_END};
use child_places::lower_children;
use definitions::MOST_CHILDREN;
use kinds::is_listed;

// What stands before a node's children, and the place after it.
#[derive(Clone, Copy)]
struct Heading {
    pub id: u64,
    pub kind: u64,
    pub payload: u64,
    pub flags: u64,
    pub next: usize,
}

// Children up to the line's end, and the place after it.
#[derive(Clone, Copy)]
struct Children {
    pub count: u64,
    pub places: [u64; MOST_CHILDREN],
    pub next: usize,
}

// A node as listed, and the place after its line.
#[derive(Clone, Copy)]
pub(crate) struct ListedNode {
    pub node: DagNode,
    pub next: usize,
}

// Id, kind, payload in 16 capital hex digits and flags.
fn heading_at(bytes: &[u8], at: usize) -> Option<Heading>
    ensures { ReadsHeading bytes.now at result }
{
    let id = decimal_at(bytes, at)?;
    let kind = spaced_decimal_at(bytes, id.next)?;
    let payload = spaced_hex_at(bytes, kind.next)?;
    let flags = spaced_decimal_at(bytes, payload.next)?;
    Some(Heading {
        id: id.value,
        kind: kind.value,
        payload: payload.value,
        flags: flags.value,
        next: flags.next,
    })
}

// Children that end at a place, if the line ends there.
fn ended(bytes: &[u8], at: usize, count: usize, places: [u64; MOST_CHILDREN]) -> Option<Children>
    ensures { ReadsEnd bytes.now at count places result }
{
    if byte_at(bytes, at) != LINE_FEED {
        return None;
    }
    Some(Children {
        count: count as u64,
        places,
        next: at + 1,
    })
}

// The children at a place, each after a space, up to the line's end.
fn children_at(bytes: &[u8], at: usize) -> Option<Children>
    ensures { ReadsChildren bytes.now at result }
{
    let mut places = [0; MOST_CHILDREN];
    let mut next = at;
    for count in 0..MOST_CHILDREN {
        let Some(child) = spaced_decimal_at(bytes, next) else {
            return ended(bytes, next, count, places);
        };
        places[count] = child.value;
        next = child.next;
    }
    ended(bytes, next, MOST_CHILDREN, places)
}

// The line of the node of an id, with its line feed.
pub(crate) fn node_line(bytes: &[u8], at: usize, wanted: u64) -> Option<ListedNode>
    ensures { ReadsLine bytes.now at wanted result }
{
    let start = heading_at(bytes, at)?;
    if start.id != wanted {
        return None;
    }
    if FLAGS_END <= start.flags {
        return None;
    }
    let rest = children_at(bytes, start.next)?;
    let places = rest.places;
    let arity = rest.count;
    if !is_listed(start.kind, start.payload, arity) {
        return None;
    }
    if !lower_children(&places[..], arity, start.id) {
        return None;
    }
    Some(ListedNode {
        node: DagNode::new(start.kind, start.payload, start.flags, arity, places),
        next: rest.next,
    })
}
