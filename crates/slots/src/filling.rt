// Ids put into slots.
ghost use Rattle.std.specs.Prelude.{◌≡◌, ◌++◌, ◌+◌, ◌*◌, ◌≤◌, ◌<◌, length, replicate, drop};
ghost use Rattle.arena.specs.Layout.{node_words, most_nodes};
ghost use Rattle.arena.specs.Nodes.{AllWellFormed};
ghost use Rattle.slots.specs.Table.{hash_at};
ghost use Rattle.slots.specs.Insert.{Room, FirstFree, Taken, FitsTable, Rehashed};

use crate::sizes::modulo_size;
use crate::window::{FREE_WINDOW, first_empty};
use arena::{HASH, NODE_WORDS};

// The first free place from a place on, round the end.
fn free_from(slots: &[u32], size: usize, home: usize) -> usize
    requires { (home < size) × Room slots.now size }
    ensures { FirstFree slots.now size home result }
{
    for far in 0..size {
        let at = modulo_size(home + far, size);
        if slots[at] == 0 {
            return at;
        }
    }
    // Some slot is empty, so that the loop does not end here.
    home
}

/// The first free place from a hash on, round the end. A window that ends within the table is looked at first.
pub fn free_place(slots: &[u32], size: usize, hash: u64) -> usize
    requires { Room slots.now size }
    ensures { FirstFree slots.now size hash result }
{
    let home = modulo_size(hash as usize, size);
    if FREE_WINDOW <= size - home {
        let first = first_empty(slots, home);
        if first < FREE_WINDOW {
            return home + first;
        }
    }
    free_from(slots, size, home)
}

// An id in the first free place from its hash.
fn place(slots: &mut [u32], size: usize, hash: u64, id: u64)
    requires { (id < most_nodes) × Room slots.old size }
    ensures { Taken slots.old size hash id slots.new }
{
    let at = free_place(slots, size, hash);
    slots[at] = (id + 1) as u32;
}

// The hash of a node.
fn node_hash_at(nodes: &[u64], id: u64) -> u64
    requires { id * node_words + node_words ≤ length nodes.now }
    ensures { result ≡ hash_at nodes.now id }
{
    nodes[id as usize * NODE_WORDS + HASH]
}

// The first n slots empty.
fn clear(slots: &mut [u32], n: usize)
    requires { n ≤ length slots.old }
    ensures { slots.new ≡ replicate n 0 ++ drop n slots.old }
{
    slots[..n].fill(0);
}

/// Fills the table anew, at a size: the nodes by rising id, each at its first free place.
pub fn rehash(nodes: &[u64], slots: &mut [u32], size: usize, count: u64)
    requires { AllWellFormed nodes.now count × FitsTable count slots.old size }
    ensures { Rehashed (hash_at nodes.now) count slots.old size slots.new }
{
    clear(slots, size);
    for id in 0..count {
        place(slots, size, node_hash_at(nodes, id), id);
    }
}
