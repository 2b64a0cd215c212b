// The line of a node.
ghost use Rattle.std.specs.Prelude.{◌≡◌, ◌+◌, ◌≤◌};
ghost use Rattle.definitions.specs.Node as N;
ghost use Rattle.definitions.specs.Listing.{all_flags, children_part};
ghost use Rattle.store.specs.View.{nodes_in};
ghost use Rattle.store.specs.Lookup.{Lookup};
ghost use Rattle.listing_lines.specs.Line.{line_bytes, children_bytes, ExtendsLine, Holds};
ghost use Rattle.listing_lines.specs.Outcome.{line_of};

use crate::digits::{with_decimal, with_number, with_payload};
use crate::line::{Line, new, with_bytes};
use arena::{FLAGS, NODE_WORDS};

// The flags of a node with its mark.
fn all_flags(nodes: &[u64], count: u64, id: u64) -> u64
    requires { Lookup nodes.now count id }
    ensures { result ≡ all_flags (N.at (nodes_in nodes.now count) id) }
{
    nodes[id as usize * NODE_WORDS + FLAGS]
}

// The children of a node, each after a space.
fn with_children(line: Line, nodes: &[u64], count: u64, id: u64) -> Line
    requires { (line.length + children_bytes ≤ line_bytes) × Lookup nodes.now count id }
    ensures { ExtendsLine line (children_part (N.at (nodes_in nodes.now count) id).children) children_bytes result }
{
    let arity = store::arity(nodes, count, id) as usize;
    let mut longer = line;
    for place in 0..arity {
        longer = with_number(longer, store::child(nodes, count, id, place));
    }
    longer
}

// The line of an id in a store whose nodes are known to be sound: id, kind, payload in 16 capital hex digits, flags and children, one
// space between, the rest decimal.
pub(crate) fn node_line_sound(nodes: &[u64], count: u64, id: u64) -> Line
    requires { Lookup nodes.now count id }
    ensures { Holds (line_of (nodes_in nodes.now count) id) result }
{
    let named = with_decimal(new(), id);
    let of_kind = with_number(named, store::kind(nodes, count, id));
    let of_payload = with_payload(of_kind, store::payload(nodes, count, id));
    let flagged = with_number(of_payload, all_flags(nodes, count, id));
    let whole = with_children(flagged, nodes, count, id);
    with_bytes(whole, b"\n")
}
