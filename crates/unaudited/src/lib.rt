// The calls of the C interface without the audit, and audit and hash alone, for the benchmark. A call's `requires` is that the store is
// sound, as every call leaves it. Nothing asks that of a caller in another language, so these functions stand in a library of their own and
// in no header. The calls are those of the layers and not `perform_sound`, so that `build_sound` has one caller here and is compiled into it.
#![tactic(auto)]

ghost use Rattle.std.specs.Prelude.{◌≡◌, true, [], ◌∷◌};
ghost use Rattle.hash.specs.Fnv.{node_hash_of};
ghost use Rattle.definitions.specs.Says.{Says};
ghost use Rattle.definitions.specs.Machine as M;
ghost use Rattle.definitions.specs.Walk.{standard};
ghost use Rattle.store.specs.Sound.{Sound};
ghost use Rattle.store.specs.Memory.{Leaves};
ghost use Rattle.building.specs.Requests.{Asked};
ghost use Rattle.outputs.specs.Calls.{arena_of, lent_memory, unless_refused, is_spent, OutputsStay};
ghost use Rattle.unaudited.specs.Building.{BuildsNode};

use arena::DagArena;
use definitions::mode::Mode;
use outputs::leaving::{leave_built, leave_pruned, leave_simplified};
use store_calls::{of_prune, of_walk};

// The audit alone: whether the store is sound.
pub fn curvalique_audit(nodes: &[u64], slots: &[u32], count: u64, size: usize) -> bool
    ensures { Says result (Sound nodes.now slots.now (arena_of count size)) }
{
    store::audit(nodes, slots, DagArena { count, size })
}

// The hash of a node alone.
pub fn curvalique_node_hash(kind: u64, payload: u64, children: &[u64]) -> u64
    ensures { result ≡ node_hash_of kind payload children.now }
{
    hash::node_hash(kind, payload, children)
}

// The id of a node with these parts.
pub fn curvalique_build_sound(
    nodes: &mut [u64],
    slots: &mut [u32],
    count: &mut u64,
    size: &mut usize,
    kind: u64,
    payload: u64,
    flags: u64,
    operands: &[u32],
    id: &mut u64,
) -> u64
    requires { Asked true kind payload flags × Sound nodes.old slots.old (arena_of count.old size.old) }
    ensures { BuildsNode kind payload flags operands.now
        (lent_memory nodes.old slots.old count.old size.old) id.old result id.new
        (lent_memory nodes.new slots.new count.new size.new) }
{
    let arena = DagArena {
        count: *count,
        size: *size,
    };
    let built = building::build_sound(nodes, slots, arena, true, kind, payload, flags, operands);
    leave_built(built, count, size, id)
}

// A walk of a root.
pub fn curvalique_simplify_sound(
    nodes: &mut [u64],
    slots: &mut [u32],
    count: &mut u64,
    size: &mut usize,
    root: u32,
    depth: u32,
    budget: u64,
    id: &mut u64,
    spent: &mut u64,
    steps: &mut u64,
) -> u64
    requires { Sound nodes.old slots.old (arena_of count.old size.old) }
    ensures leaves { Leaves (M.simplify standard root depth budget)
        (lent_memory nodes.old slots.old count.old size.old)
        (unless_refused result (M.simplified id.new (is_spent spent.new) steps.new))
        (lent_memory nodes.new slots.new count.new size.new) }
    ensures outputs_stay { OutputsStay result (id.old ∷ spent.old ∷ steps.old ∷ [])
        (id.new ∷ spent.new ∷ steps.new ∷ []) }
{
    let arena = DagArena {
        count: *count,
        size: *size,
    };
    let outcome = walk::simplify_sound(nodes, slots, arena, Mode::Standard, root, depth, budget);
    leave_simplified(of_walk(outcome), count, size, id, spent, steps)
}

// A prune of a root at a threshold.
pub fn curvalique_prune_sound(
    nodes: &mut [u64],
    slots: &mut [u32],
    count: &mut u64,
    size: &mut usize,
    root: u32,
    threshold: u64,
    id: &mut u64,
    kept: &mut u64,
    dropped: &mut u64,
) -> u64
    requires { Sound nodes.old slots.old (arena_of count.old size.old) }
    ensures leaves { Leaves (M.prune root threshold) (lent_memory nodes.old slots.old count.old
        size.old) (unless_refused result (M.pruned id.new kept.new dropped.new))
        (lent_memory nodes.new slots.new count.new size.new) }
    ensures outputs_stay { OutputsStay result (id.old ∷ kept.old ∷ dropped.old ∷ [])
        (id.new ∷ kept.new ∷ dropped.new ∷ []) }
{
    let arena = DagArena {
        count: *count,
        size: *size,
    };
    let outcome = pruner::prune_sound(nodes, slots, arena, root, threshold);
    leave_pruned(of_prune(outcome), count, size, id, kept, dropped)
}
