// A node's parts as they are lent, and with their hash the key by which the node is found.
ghost use Rattle.std.specs.Prelude.{◌≡◌, ◌≤◌, length};
ghost use Rattle.arena.specs.Layout.{most_children};
ghost use Rattle.hash.specs.Fnv.{node_hash_of};

/// The parts of a node over lent children, at most 16.
#[derive(Clone, Copy, Debug, PartialEq, Eq)]
pub struct Parts<'a> {
    pub kind: u64,
    pub payload: u64,
    pub flags: u64,
    pub children: &'a [u32],
    ghost few: { length children.now ≤ most_children },
}

/// The parts of a node with the hash of its kind, its payload and its children.
#[derive(Clone, Copy, Debug, PartialEq, Eq)]
pub struct Key<'a> {
    pub parts: Parts<'a>,
    pub hash: u64,
    ghost hashed: { hash ≡ node_hash_of parts.kind parts.payload parts.children.now },
}

impl<'a> Key<'a> {
    /// The key of a node with these parts.
    pub fn new(parts: Parts<'a>) -> Key<'a>
        ensures { result.parts ≡ parts.entry }
    {
        let hash = hash::node_hash(parts.kind, parts.payload, parts.children);
        Key { parts, hash }
    }
}
