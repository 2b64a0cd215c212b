// A call on the store whose counts stand behind pointers, with its answer left behind pointers.
ghost use Rattle.std.specs.Prelude.{◌≡◌, [], ◌∷◌};
ghost use Rattle.definitions.specs.Machine as M;
ghost use Rattle.store.specs.Memory.{Leaves};
ghost use Rattle.store_calls.specs.Calls.{call_of};
ghost use Rattle.outputs.specs.Calls.{lent_memory, unless_refused, is_spent, OutputsStay, SpentOrNot};
ghost use Rattle.curvalique.specs.Kinds.{kind_of, making, walking, pruning};

use arena::DagArena;
use outputs::leaving::{leave_pruned, leave_simplified, leave_stored};
use store_calls::{Call, perform};

// A call that makes a node.
pub(crate) fn make(
    nodes: &mut [u64],
    slots: &mut [u32],
    count: &mut u64,
    size: &mut usize,
    call: Call,
    id: &mut u64,
) -> u64
    requires { kind_of (call_of call) ≡ making }
    ensures leaves { Leaves (call_of call.entry)
        (lent_memory nodes.old slots.old count.old size.old)
        (unless_refused result (M.stored id.new))
        (lent_memory nodes.new slots.new count.new size.new) }
    ensures outputs_stay { OutputsStay result (id.old ∷ []) (id.new ∷ []) }
{
    let arena = DagArena {
        count: *count,
        size: *size,
    };
    let performed = perform(nodes, slots, arena, call);
    leave_stored(performed, count, size, id)
}

// A walk.
pub(crate) fn simplify(
    nodes: &mut [u64],
    slots: &mut [u32],
    count: &mut u64,
    size: &mut usize,
    call: Call,
    id: &mut u64,
    spent: &mut u64,
    steps: &mut u64,
) -> u64
    requires { kind_of (call_of call) ≡ walking }
    ensures leaves { Leaves (call_of call.entry)
        (lent_memory nodes.old slots.old count.old size.old)
        (unless_refused result (M.simplified id.new (is_spent spent.new) steps.new))
        (lent_memory nodes.new slots.new count.new size.new) }
    ensures outputs_stay { OutputsStay result (id.old ∷ spent.old ∷ steps.old ∷ [])
        (id.new ∷ spent.new ∷ steps.new ∷ []) }
    ensures spent_or_not { SpentOrNot result spent.new }
{
    let arena = DagArena {
        count: *count,
        size: *size,
    };
    let performed = perform(nodes, slots, arena, call);
    leave_simplified(performed, count, size, id, spent, steps)
}

// A prune.
pub(crate) fn prune(
    nodes: &mut [u64],
    slots: &mut [u32],
    count: &mut u64,
    size: &mut usize,
    call: Call,
    id: &mut u64,
    kept: &mut u64,
    dropped: &mut u64,
) -> u64
    requires { kind_of (call_of call) ≡ pruning }
    ensures leaves { Leaves (call_of call.entry)
        (lent_memory nodes.old slots.old count.old size.old)
        (unless_refused result (M.pruned id.new kept.new dropped.new))
        (lent_memory nodes.new slots.new count.new size.new) }
    ensures outputs_stay { OutputsStay result (id.old ∷ kept.old ∷ dropped.old ∷ [])
        (id.new ∷ kept.new ∷ dropped.new ∷ []) }
{
    let arena = DagArena {
        count: *count,
        size: *size,
    };
    let performed = perform(nodes, slots, arena, call);
    leave_pruned(performed, count, size, id, kept, dropped)
}
