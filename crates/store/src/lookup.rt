// The parts of a node, by its id, and its mark, over slices: lookups need no slots, so that they are functions of the words and the count alone.
ghost use Rattle.std.specs.Prelude.{◌≡◌, ℕ, ◌<◌, length, get_or};
ghost use Rattle.definitions.specs.Node as N;
ghost use Rattle.store.specs.View.{nodes_in};
ghost use Rattle.store.specs.Lookup.{Lookup, Marked};

use arena::{ARITY, CANONICAL, CHILDREN, FLAGS, KIND, NODE_WORDS, PAYLOAD};

/// The kind of a node.
pub fn kind(nodes: &[u64], count: u64, id: u64) -> u64
    requires { Lookup nodes.now count id }
    ensures { result ≡ (N.at (nodes_in nodes.now count) id).kind }
{
    nodes[id as usize * NODE_WORDS + KIND]
}

/// The payload of a node.
pub fn payload(nodes: &[u64], count: u64, id: u64) -> u64
    requires { Lookup nodes.now count id }
    ensures { result ≡ (N.at (nodes_in nodes.now count) id).payload }
{
    nodes[id as usize * NODE_WORDS + PAYLOAD]
}

/// Whether a node is marked.
pub fn is_canonical(nodes: &[u64], count: u64, id: u64) -> bool
    requires { Lookup nodes.now count id }
    ensures { result ≡ (N.at (nodes_in nodes.now count) id).canonical }
{
    CANONICAL <= nodes[id as usize * NODE_WORDS + FLAGS]
}

/// How many children a node has.
pub fn arity(nodes: &[u64], count: u64, id: u64) -> u64
    requires { Lookup nodes.now count id }
    ensures { result ≡ length (N.at (nodes_in nodes.now count) id).children }
{
    nodes[id as usize * NODE_WORDS + ARITY]
}

/// A child of a node.
pub fn child(nodes: &[u64], count: u64, id: u64, place: usize) -> u64
    requires { (place < length (N.at (nodes_in nodes.now count) id).children) × Lookup nodes.now count id }
    ensures { result ≡ get_or (N.at (nodes_in nodes.now count) id).children place 0 }
{
    nodes[id as usize * NODE_WORDS + CHILDREN + place]
}

/// Whether a node's children are these, as many as it has.
pub fn has_children(nodes: &[u64], count: u64, id: u64, children: &[u32]) -> bool
    requires { (length children.now ≡ length (N.at (nodes_in nodes.now count) id).children) × Lookup nodes.now count id }
    ensures { result ≡ N.same_children (N.at (nodes_in nodes.now count) id).children children.now }
{
    arena::has_children(nodes, id as usize * NODE_WORDS + CHILDREN, children)
}

/// A node's mark set.
pub fn mark(nodes: &mut [u64], count: u64, id: u64)
    requires { Lookup nodes.old count id }
    ensures { Marked nodes.old count id nodes.new }
{
    arena::mark(nodes, id);
}
