// The audit of a store's nodes and slots.
#![tactic(auto)]

ghost use Rattle.std.specs.Prelude.{◌≡◌, suc, ◌≤◌, ◌<◌, length};
ghost use Rattle.definitions.specs.Says.{Says};
ghost use Rattle.arena.specs.Node.{node_at};
ghost use Rattle.arena.specs.Nodes.{AllWellFormed, Nodes};
ghost use Rattle.slots.specs.Table.{Table, hash_at};
ghost use Rattle.slots.specs.Held.{holds};
ghost use Rattle.table_audit.specs.Audit.{used_slots, Fit, MeetsOwn, AllMeetOwn};

use arena::{DagArena, HASH, NODE_WORDS, audit_nodes, is_one};
use slots::{is_table_size, load_limit, modulo_size, slot_id};

// How many of the first `size` slots are in use.
fn used_slots(slots: &[u32], size: usize) -> usize
    requires { size ≤ length slots.now }
    ensures { result ≡ used_slots slots.now size }
{
    let mut used = 0;
    for slot in &slots[..size] {
        if *slot != 0 {
            used += 1;
        }
    }
    used
}

// Whether the node of a lower id, by its slot, is one with that of an id. The hash is compared first.
fn is_one_with(nodes: &[u64], slot: u32, id: u64, hash: u64) -> bool
    requires { (0 < slot) × (slot ≤ id) × AllWellFormed nodes.now (suc id) × (hash ≡ hash_at nodes.now id) }
    ensures { result ≡ holds nodes.now id (node_at nodes.now id) slot }
{
    let other = slot_id(slot);
    if nodes[other as usize * NODE_WORDS + HASH] != hash {
        return false;
    }
    is_one(nodes, other, id)
}

// Whether the search for a node meets the slot of its own id, and before it only slots of lower ids, whose nodes are others.
fn meets_own(nodes: &[u64], slots: &[u32], arena: DagArena, id: u64) -> bool
    requires { (id < arena.count) × AllWellFormed nodes.now arena.count × Fit slots.now arena.size }
    ensures { Says result (MeetsOwn nodes.now slots.now arena.size id) }
{
    let size = arena.size;
    let hash = nodes[id as usize * NODE_WORDS + HASH];
    let own = (id + 1) as u32;
    let home = modulo_size(hash as usize, size);
    for far in 0..size {
        let slot = slots[modulo_size(home + far, size)];
        if slot == own {
            return true;
        }
        if slot == 0 {
            return false;
        }
        if own < slot {
            return false;
        }
        if is_one_with(nodes, slot, id, hash) {
            return false;
        }
    }
    false
}

// Whether that holds of all nodes.
fn all_meet_own(nodes: &[u64], slots: &[u32], arena: DagArena) -> bool
    requires { AllWellFormed nodes.now arena.count × Fit slots.now arena.size }
    ensures { Says result (AllMeetOwn nodes.now arena.count slots.now arena.size) }
{
    for id in 0..arena.count {
        if !meets_own(nodes, slots, arena, id) {
            return false;
        }
    }
    true
}

/// Whether the nodes and the table are those of a sound store. Each id has a slot, and as many slots as
/// ids are in use: so no id has two, and every other slot is 0.
pub fn audit(nodes: &[u64], slots: &[u32], arena: DagArena) -> bool
    ensures { Says result (Nodes nodes.now arena.count × Table (hash_at nodes.now) arena.count
        slots.now arena.size) }
{
    let count = arena.count;
    let size = arena.size;
    if slots.len() < size {
        return false;
    }
    if !is_table_size(size) {
        return false;
    }
    if !audit_nodes(nodes, count) {
        return false;
    }
    let ids = count as usize;
    if load_limit(size) < ids {
        return false;
    }
    if used_slots(slots, size) != ids {
        return false;
    }
    all_meet_own(nodes, slots, arena)
}
