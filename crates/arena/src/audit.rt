// The audit of nodes.
ghost use Rattle.std.specs.Prelude.{◌+◌, ◌*◌, ◌≤◌, length};
ghost use Rattle.definitions.specs.Says.{Says};
ghost use Rattle.arena.specs.Layout.{node_words};
ghost use Rattle.arena.specs.Node.{node_at};
ghost use Rattle.arena.specs.Nodes.{WellFormed, AllWellFormed};

use crate::node::coefficient_of;
use crate::{
    ARITY, CHILDREN, COEFFICIENT, FLAGS, FLAGS_END, HASH, KIND, MOST_NODES, NODE_WORDS, PAYLOAD,
};
use child_places::lower_children;
use definitions::MOST_CHILDREN;
use kinds::is_listed;

// Whether the node of an id is as listed. Its words are read where they stand. The children are tested before they are cut to
// 4 bytes for the hash.
fn well_formed(nodes: &[u64], id: u64) -> bool
    requires { id * node_words + node_words ≤ length nodes.now }
    ensures { Says result (WellFormed id (node_at nodes.now id)) }
{
    let at = id as usize * NODE_WORDS;
    let kind = nodes[at + KIND];
    let payload = nodes[at + PAYLOAD];
    let arity = nodes[at + ARITY];
    if !is_listed(kind, payload, arity) {
        return false;
    }
    if FLAGS_END <= nodes[at + FLAGS] {
        return false;
    }
    let from = at + CHILDREN;
    let end = from + MOST_CHILDREN;
    if !lower_children(&nodes[from..end], arity, id) {
        return false;
    }
    let to = from + arity as usize;
    if nodes[at + HASH] != hash::node_hash(kind, payload, &nodes[from..to]) {
        return false;
    }
    nodes[at + COEFFICIENT] == coefficient_of(kind, payload)
}

/// Whether all nodes are as listed, and no more than there is place for.
pub fn audit_nodes(nodes: &[u64], count: u64) -> bool
    ensures { Says result (AllWellFormed nodes.now count) }
{
    if MOST_NODES < count {
        return false;
    }
    if nodes.len() < count as usize * NODE_WORDS {
        return false;
    }
    for id in 0..count {
        if !well_formed(nodes, id) {
            return false;
        }
    }
    true
}
