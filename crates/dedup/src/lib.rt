// The duplicate table of a store: one node, one id. A slot is an id + 1 of 32 bits, or 0.
#![tactic(auto)]

ghost use Rattle.arena.specs.Layout.{arena_of};
ghost use Rattle.arena.specs.Key.{node_of_key};
ghost use Rattle.arena.specs.Nodes.{WellFormed, Nodes};
ghost use Rattle.slots.specs.Table.{Table, hash_at};
ghost use Rattle.slots.specs.Insert.{FirstFree};
ghost use Rattle.dedup.specs.Intern.{answered, Inserts, Absent, Full};

pub mod probing;

use arena::{Key, MOST_NODES, NODE_WORDS, store_parts};
use probing::{Place, search};
use refusal::Refusal;
use slots::{load_limit, rehash, slot_id};

// A new node in a table that is doubled and filled anew with it.
fn insert_growing(
    nodes: &mut [u64],
    slots: &mut [u32],
    count: &mut u64,
    size: &mut usize,
    key: Key,
) -> Result<u64, Refusal>
    requires { Full nodes.old slots.old (arena_of count.old size.old) (node_of_key key) }
    ensures { Inserts nodes.old slots.old (arena_of count.old size.old) (node_of_key key.entry)
        (answered result count.new size.new) nodes.new slots.new }
{
    let id = *count;
    if slots.len() / 2 < *size {
        return Err(Refusal::NoSlotPlace);
    }
    let doubled = *size * 2;
    store_parts(nodes, id, key);
    rehash(nodes, slots, doubled, id + 1);
    *count = id + 1;
    *size = doubled;
    Ok(id)
}

// A node that is none of the old ones, whose first free place is at hand.
fn insert(
    nodes: &mut [u64],
    slots: &mut [u32],
    count: &mut u64,
    size: &mut usize,
    key: Key,
    free: usize,
) -> Result<u64, Refusal>
    requires { Absent nodes.old slots.old (arena_of count.old size.old) (node_of_key key) × FirstFree slots.old size.old key.hash
        free }
    ensures { Inserts nodes.old slots.old (arena_of count.old size.old) (node_of_key key.entry)
        (answered result count.new size.new) nodes.new slots.new }
{
    let id = *count;
    if MOST_NODES <= id {
        return Err(Refusal::NoNodePlace);
    }
    if nodes.len() < id as usize * NODE_WORDS + NODE_WORDS {
        return Err(Refusal::NoNodePlace);
    }
    if (id as usize) < load_limit(*size) {
        slots[free] = (id + 1) as u32;
        store_parts(nodes, id, key);
        *count = id + 1;
        return Ok(id);
    }
    insert_growing(nodes, slots, count, size, key)
}

/// The id of the node of a key, old or new. An old node is found before anything is refused. A new one is refused with `NoNodePlace`
/// past 65,536 nodes or past the lent words, and with `NoSlotPlace` where the table must double and the lent slots are too few; then all
/// stays as it was.
pub fn get_or_insert(
    nodes: &mut [u64],
    slots: &mut [u32],
    count: &mut u64,
    size: &mut usize,
    key: Key,
) -> Result<u64, Refusal>
    requires { Nodes nodes.old count.old × Table (hash_at nodes.old) count.old slots.old size.old × WellFormed count.old
        (node_of_key key) }
    ensures { Inserts nodes.old slots.old (arena_of count.old size.old) (node_of_key key.entry)
        (answered result count.new size.new) nodes.new slots.new }
{
    match search(nodes, slots, *size, key, *count) {
        Place::Here(at) => Ok(slot_id(slots[at])),
        Place::Free(at) => insert(nodes, slots, count, size, key, at),
        // A table within its load limit has an empty slot, so a search does not end here.
        Place::Nowhere => Err(Refusal::NoSlotPlace),
    }
}
