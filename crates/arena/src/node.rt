// A node by value, and its words.
ghost use Rattle.std.specs.Prelude.{◌≡◌, [], ◌+◌, ◌*◌, ◌≤◌, length, take};
ghost use Rattle.definitions.specs.Node.{same_children};
ghost use Rattle.std.proofs.Math.Seq.{paste};
ghost use Rattle.arena.specs.Layout.{node_words, most_children};
ghost use Rattle.arena.specs.Nodes.{WellFormed};
ghost use Rattle.arena.specs.Node.{words_from, node_at, put, one, coefficient, new_node, places_of, marked};
ghost use Rattle.arena.specs.Key.{node_of_parts, node_of_key};

use crate::key::{Key, Parts};
use crate::{ARITY, CANONICAL, CHILDREN, COEFFICIENT, FLAGS, HASH, KIND, NODE_WORDS, PAYLOAD};
use definitions::MOST_CHILDREN;
use kinds::CONSTANT;

/// The binary64 bits of 1.0.
pub const BITS_OF_ONE: u64 = 0x3ff0_0000_0000_0000;

/// A node by value, with its child places, of which the unused ones are 0.
#[derive(Clone, Copy, Debug, PartialEq, Eq)]
pub struct DagNode {
    pub kind: u64,
    pub payload: u64,
    pub hash: u64,
    pub coefficient: u64,
    pub flags: u64,
    pub arity: u64,
    pub children: [u64; MOST_CHILDREN],
}

// The coefficient is a constant's value, else 1.0.
pub(crate) fn coefficient_of(kind: u64, payload: u64) -> u64
    ensures { result ≡ coefficient kind payload }
{
    if kind == CONSTANT {
        payload
    } else {
        BITS_OF_ONE
    }
}

impl DagNode {
    /// A node with its hash and its coefficient, over the first `arity` of the child places. The children are lent to the hash: a copy
    /// of them would wait until they are in memory.
    pub fn new(
        kind: u64,
        payload: u64,
        flags: u64,
        arity: u64,
        children: [u64; MOST_CHILDREN],
    ) -> Self
        requires { arity ≤ most_children }
        ensures { result ≡ new_node kind payload flags arity children }
    {
        let used = arity as usize;
        let hash = hash::node_hash(kind, payload, &children[..used]);
        let coefficient = coefficient_of(kind, payload);
        Self {
            kind,
            payload,
            hash,
            coefficient,
            flags,
            arity,
            children,
        }
    }
}

// The child places that stand from a word on.
fn load_children(nodes: &[u64], at: usize) -> [u64; MOST_CHILDREN]
    requires { at + most_children ≤ length nodes.now }
    ensures { result ≡ words_from most_children nodes.now at }
{
    let mut children = [0; MOST_CHILDREN];
    children.copy_from_slice(&nodes[at..at + MOST_CHILDREN]);
    children
}

/// The node of an id.
pub fn load(nodes: &[u64], id: u64) -> DagNode
    requires { id * node_words + node_words ≤ length nodes.now }
    ensures { result ≡ node_at nodes.now id }
{
    let at = id as usize * NODE_WORDS;
    let children = load_children(nodes, at + CHILDREN);
    DagNode {
        kind: nodes[at + KIND],
        payload: nodes[at + PAYLOAD],
        hash: nodes[at + HASH],
        coefficient: nodes[at + COEFFICIENT],
        flags: nodes[at + FLAGS],
        arity: nodes[at + ARITY],
        children,
    }
}

// The child places, from a word on.
fn store_children(nodes: &mut [u64], at: usize, children: [u64; MOST_CHILDREN])
    requires { at + most_children ≤ length nodes.old }
    ensures { nodes.new ≡ paste nodes.old at children most_children }
{
    nodes[at..at + MOST_CHILDREN].copy_from_slice(&children);
}

/// Writes a node's words, at its id.
pub fn store_node(nodes: &mut [u64], id: u64, node: DagNode)
    requires { id * node_words + node_words ≤ length nodes.old }
    ensures { nodes.new ≡ put nodes.old id node }
{
    let at = id as usize * NODE_WORDS;
    let children = node.children;
    nodes[at + KIND] = node.kind;
    nodes[at + PAYLOAD] = node.payload;
    nodes[at + HASH] = node.hash;
    nodes[at + COEFFICIENT] = node.coefficient;
    nodes[at + FLAGS] = node.flags;
    nodes[at + ARITY] = node.arity;
    store_children(nodes, at + CHILDREN, children);
}

// The child places from a word on, all 0.
fn clear_places(nodes: &mut [u64], at: usize)
    requires { at + most_children ≤ length nodes.old }
    ensures { nodes.new ≡ paste nodes.old at (places_of []) most_children }
{
    nodes[at..at + MOST_CHILDREN].fill(0);
}

// The children from a word on, and 0 in the places after them: all places are cleared first, in a loop of fixed length.
fn store_ids(nodes: &mut [u64], at: usize, children: &[u32])
    requires { (at + most_children ≤ length nodes.old) × (length children.now ≤ most_children) }
    ensures { nodes.new ≡ paste nodes.old at (places_of children.now) most_children }
{
    clear_places(nodes, at);
    for j in 0..children.len() {
        nodes[at + j] = u64::from(children[j]);
    }
}

/// Writes the words of the node of a key, at its id.
pub fn store_parts(nodes: &mut [u64], id: u64, key: Key)
    requires { id * node_words + node_words ≤ length nodes.old }
    ensures { nodes.new ≡ put nodes.old id (node_of_key key.entry) }
{
    let at = id as usize * NODE_WORDS;
    let parts = key.parts;
    nodes[at + KIND] = parts.kind;
    nodes[at + PAYLOAD] = parts.payload;
    nodes[at + HASH] = key.hash;
    nodes[at + COEFFICIENT] = coefficient_of(parts.kind, parts.payload);
    nodes[at + FLAGS] = parts.flags;
    nodes[at + ARITY] = parts.children.len() as u64;
    store_ids(nodes, at + CHILDREN, parts.children);
}

/// Whether the words from a place on are these children.
pub fn has_children(nodes: &[u64], at: usize, children: &[u32]) -> bool
    requires { at + length children.now ≤ length nodes.now }
    ensures { result ≡ same_children (words_from (length children.now) nodes.now at) children.now }
{
    nodes[at..at + children.len()]
        .iter()
        .zip(children)
        .all(|(word, child)| *word == u64::from(*child))
}

/// Whether an id's node is one with a node of these parts: two nodes are one if their kinds, payloads, children and flags without 4
/// agree. Unused places of both are 0, so that those in use are compared alone.
pub fn has_parts(nodes: &[u64], id: u64, parts: Parts) -> bool
    requires { (id * node_words + node_words ≤ length nodes.now) × WellFormed id (node_at nodes.now id) }
    ensures { result ≡ one (node_at nodes.now id) (node_of_parts parts.entry) }
{
    let at = id as usize * NODE_WORDS;
    if nodes[at + KIND] != parts.kind {
        return false;
    }
    if nodes[at + PAYLOAD] != parts.payload {
        return false;
    }
    if nodes[at + FLAGS] % CANONICAL != parts.flags % CANONICAL {
        return false;
    }
    if nodes[at + ARITY] != parts.children.len() as u64 {
        return false;
    }
    has_children(nodes, at + CHILDREN, parts.children)
}

// Whether the words from two places on, so many of them, agree.
fn same_words(nodes: &[u64], a: usize, b: usize, count: usize) -> bool
    requires { (a + count ≤ length nodes.now) × (b + count ≤ length nodes.now) }
    ensures { result ≡ same_children (words_from count nodes.now a) (words_from count nodes.now b) }
{
    nodes[a..a + count] == nodes[b..b + count]
}

/// Whether the nodes of two ids are one.
pub fn is_one(nodes: &[u64], first: u64, second: u64) -> bool
    requires { (first * node_words + node_words ≤ length nodes.now) × (second * node_words + node_words ≤ length nodes.now) }
    ensures { result ≡ one (node_at nodes.now first) (node_at nodes.now second) }
{
    let a = first as usize * NODE_WORDS;
    let b = second as usize * NODE_WORDS;
    if nodes[a + KIND] != nodes[b + KIND] {
        return false;
    }
    if nodes[a + PAYLOAD] != nodes[b + PAYLOAD] {
        return false;
    }
    if nodes[a + FLAGS] % CANONICAL != nodes[b + FLAGS] % CANONICAL {
        return false;
    }
    if nodes[a + ARITY] != nodes[b + ARITY] {
        return false;
    }
    same_words(nodes, a + CHILDREN, b + CHILDREN, MOST_CHILDREN)
}

/// Sets a node's mark: flag 4, canonical.
pub fn mark(nodes: &mut [u64], id: u64)
    requires { id * node_words + node_words ≤ length nodes.old }
    ensures { nodes.new ≡ marked nodes.old id }
{
    let at = id as usize * NODE_WORDS + FLAGS;
    nodes[at] = nodes[at] % CANONICAL + CANONICAL;
}
