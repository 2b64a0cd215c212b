// The nodes of a store: words of 64 bits in a lent list. Ids count from 0.
#![tactic(auto)]

pub mod audit;
pub mod key;
pub mod node;

pub use audit::audit_nodes;
use definitions::MOST_CHILDREN;
pub use key::{Key, Parts};
pub use node::{DagNode, has_children, has_parts, is_one, load, mark, store_node, store_parts};

// A node is 22 words: its kind, payload, hash, coefficient's bits, flags and child count, and the child places. Each word's place
// is counted from the node's first.
pub const KIND: usize = 0;

pub const PAYLOAD: usize = 1;

pub const HASH: usize = 2;

pub const COEFFICIENT: usize = 3;

pub const FLAGS: usize = 4;

pub const ARITY: usize = 5;

pub const CHILDREN: usize = 6;

pub const NODE_WORDS: usize = CHILDREN + MOST_CHILDREN;

/// A store has at most so many nodes.
pub const MOST_NODES: u64 = 65_536;

// Flags are 1 for commutative, 2 for associative and 4 for canonical.
pub const COMMUTATIVE: u64 = 1;

pub const ASSOCIATIVE: u64 = 2;

/// The flags of a sum and of a product. No call gives others.
pub const REORDERABLE: u64 = COMMUTATIVE + ASSOCIATIVE;

pub const CANONICAL: u64 = 4;

/// Flags are below this.
pub const FLAGS_END: u64 = 8;

/// How many nodes a store has, and how many slots its table has.
#[derive(Clone, Copy, Debug, PartialEq, Eq)]
pub struct DagArena {
    pub count: u64,
    pub size: usize,
}
