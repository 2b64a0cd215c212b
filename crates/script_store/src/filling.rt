// Hashes and slots made anew over any words, sound or not.
use arena::{DagNode, HASH, NODE_WORDS, load};
use definitions::MOST_CHILDREN;

// A value in the first empty slot from a hash onward, round the end.
fn place(slots: &mut [u32], hash: u64, value: u32) {
    let size = slots.len();
    for passed in 0..size {
        let at = (hash as usize % size + passed) % size;
        if slots[at] == 0 {
            slots[at] = value;
            return;
        }
    }
}

/// A table of a size with the slots of the first nodes, by the hashes in their words.
pub fn refill(nodes: &[u64], slots: &mut [u32], size: usize, count: u32) {
    if nodes.len() / NODE_WORDS < count as usize {
        return;
    }
    slots.fill(0);
    if slots.len() < size {
        return;
    }
    let table = &mut slots[..size];
    for id in 0..count {
        place(table, nodes[id as usize * NODE_WORDS + HASH], id + 1);
    }
}

// The hash of a node by its other words.
fn hash_at(nodes: &[u64], id: u32) -> u64 {
    if nodes.len() < id as usize * NODE_WORDS + NODE_WORDS {
        return 0;
    }
    let node = load(nodes, u64::from(id));
    if (MOST_CHILDREN as u64) < node.arity {
        return 0;
    }
    let children = node.children;
    DagNode::new(node.kind, node.payload, node.flags, node.arity, children).hash
}

/// The hash words of the first nodes, by their other words.
pub fn rehash(nodes: &mut [u64], count: u32) {
    if nodes.len() / NODE_WORDS < count as usize {
        return;
    }
    for id in 0..count {
        nodes[id as usize * NODE_WORDS + HASH] = hash_at(nodes, id);
    }
}
