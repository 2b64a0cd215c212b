// The search for a key: where its node is, or where a new one goes.
ghost use Rattle.std.specs.Prelude.{◌≡◌, ◌^◌, ◌<◌};
ghost use Rattle.definitions.specs.Says.{Says};
ghost use Rattle.arena.specs.Key.{node_of_key};
ghost use Rattle.arena.specs.Nodes.{AllWellFormed};
ghost use Rattle.slots.specs.Insert.{Room};
ghost use Rattle.dedup.specs.Probe.{greatest_child, compared_id, Searchable, Probed, OverNewest};
ghost use Rattle.slots.specs.Held.{holds};

use arena::{HASH, Key, NODE_WORDS, has_parts};
use slots::{free_place, modulo_size, slot_id};

/// Where a search ends: at a slot that holds the key's node, at an empty one, or at none.
#[derive(Clone, Copy, Debug, PartialEq, Eq)]
pub enum Place {
    Here(usize),
    Free(usize),
    Nowhere,
}

// The greatest of a key's children, 0 if it has none.
fn greatest_child(children: &[u32]) -> u64
    ensures { (result ≡ greatest_child children.now) × (result < 2 ^ 32) }
{
    let mut greatest = 0;
    for child in children {
        greatest = u64::from(*child).max(greatest);
    }
    greatest
}

// Whether the newest node is a child of the key. Children are lower than their node, so that then no node is the key.
fn is_over_newest(children: &[u32], greatest: u64, count: u64) -> bool
    requires { (greatest ≡ greatest_child children.now) × (greatest < 2 ^ 32) }
    ensures { Says result (OverNewest count children.now) }
{
    if children.len() == 0 {
        return false;
    }
    greatest + 1 == count
}

// The id whose node is compared with the key for an id. The node of an id that is not above the key's greatest child is
// another: node 0 is looked at in its place, whose words are near. That is no branch, since none could be foreseen.
fn compared_id(id: u64, greatest: u64) -> u64
    ensures { result ≡ compared_id id greatest }
{
    if greatest < id { id } else { 0 }
}

// Whether a slot in use holds an id below `known` whose node is one with the key. The hash is compared first.
fn slot_holds(nodes: &[u64], slot: u32, key: Key, greatest: u64, known: u64) -> bool
    requires { (0 < slot) × AllWellFormed nodes.now known × (greatest ≡ greatest_child key.parts.children.now) }
    ensures { result ≡ holds nodes.now known (node_of_key key.entry) slot }
{
    let id = slot_id(slot);
    if known <= id {
        return false;
    }
    let compared = compared_id(id, greatest);
    if nodes[compared as usize * NODE_WORDS + HASH] != key.hash {
        return false;
    }
    has_parts(nodes, compared, key.parts)
}

// The first slot from the key's hash onward, round the end, that is empty or holds a node that is one with the
// key. Only nodes below `known` are compared.
fn probe(nodes: &[u64], slots: &[u32], size: usize, key: Key, greatest: u64, known: u64) -> Place
    requires { Searchable nodes.now known slots.now size × (greatest ≡ greatest_child key.parts.children.now) }
    ensures { Probed nodes.now known slots.now size (node_of_key key.entry) result }
{
    let home = modulo_size(key.hash as usize, size);
    for far in 0..size {
        let at = modulo_size(home + far, size);
        let slot = slots[at];
        if slot == 0 {
            return Place::Free(at);
        }
        if slot_holds(nodes, slot, key, greatest, known) {
            return Place::Here(at);
        }
    }
    Place::Nowhere
}

// Where the search for a key ends. A key over the newest node is none of the nodes: no node is compared with it.
pub(crate) fn search(nodes: &[u64], slots: &[u32], size: usize, key: Key, count: u64) -> Place
    requires { Searchable nodes.now count slots.now size × Room slots.now size }
    ensures { Probed nodes.now count slots.now size (node_of_key key.entry) result }
{
    let greatest = greatest_child(key.parts.children);
    if is_over_newest(key.parts.children, greatest, count) {
        return Place::Free(free_place(slots, size, key.hash));
    }
    probe(nodes, slots, size, key, greatest, count)
}
