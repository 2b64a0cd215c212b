// Functions and controls.
ghost use Rattle.std.specs.Prelude.{[], ◌∷◌};
ghost use Rattle.definitions.specs.Machine as M;
ghost use Rattle.store.specs.Memory.{Leaves};
ghost use Rattle.outputs.specs.Calls.{lent_memory, unless_refused, OutputsStay};

use crate::performing::make;
use store_calls::{Call, codes};

// A function, by its number, over its operands.
pub fn curvalique_function(
    nodes: &mut [u64],
    slots: &mut [u32],
    count: &mut u64,
    size: &mut usize,
    number: u32,
    operands: &[u32],
    id: &mut u64,
) -> u64
    ensures leaves { Leaves (M.store (M.function number operands.now))
        (lent_memory nodes.old slots.old count.old size.old)
        (unless_refused result (M.stored id.new)) (lent_memory nodes.new slots.new count.new
        size.new) }
    ensures outputs_stay { OutputsStay result (id.old ∷ []) (id.new ∷ []) }
{
    make(
        nodes,
        slots,
        count,
        size,
        Call::Function { number, operands },
        id,
    )
}

// Select, over three operands.
pub fn curvalique_select(
    nodes: &mut [u64],
    slots: &mut [u32],
    count: &mut u64,
    size: &mut usize,
    a: u32,
    b: u32,
    c: u32,
    id: &mut u64,
) -> u64
    ensures leaves { Leaves (M.store (M.select a b c)) (lent_memory nodes.old slots.old count.old
        size.old) (unless_refused result (M.stored id.new))
        (lent_memory nodes.new slots.new count.new size.new) }
    ensures outputs_stay { OutputsStay result (id.old ∷ []) (id.new ∷ []) }
{
    let call = Call::Control {
        code: codes::SELECT,
        operands: &[a, b, c],
    };
    make(nodes, slots, count, size, call, id)
}

// IfElse, over three operands.
pub fn curvalique_if_else(
    nodes: &mut [u64],
    slots: &mut [u32],
    count: &mut u64,
    size: &mut usize,
    a: u32,
    b: u32,
    c: u32,
    id: &mut u64,
) -> u64
    ensures leaves { Leaves (M.store (M.if_else a b c)) (lent_memory nodes.old slots.old count.old
        size.old) (unless_refused result (M.stored id.new))
        (lent_memory nodes.new slots.new count.new size.new) }
    ensures outputs_stay { OutputsStay result (id.old ∷ []) (id.new ∷ []) }
{
    let call = Call::Control {
        code: codes::IF_ELSE,
        operands: &[a, b, c],
    };
    make(nodes, slots, count, size, call, id)
}

// ForLoop, over four operands.
pub fn curvalique_for_loop(
    nodes: &mut [u64],
    slots: &mut [u32],
    count: &mut u64,
    size: &mut usize,
    a: u32,
    b: u32,
    c: u32,
    d: u32,
    id: &mut u64,
) -> u64
    ensures leaves { Leaves (M.store (M.for_loop a b c d)) (lent_memory nodes.old slots.old count.old
        size.old) (unless_refused result (M.stored id.new))
        (lent_memory nodes.new slots.new count.new size.new) }
    ensures outputs_stay { OutputsStay result (id.old ∷ []) (id.new ∷ []) }
{
    let call = Call::Control {
        code: codes::FOR_LOOP,
        operands: &[a, b, c, d],
    };
    make(nodes, slots, count, size, call, id)
}

// Any control, by its code, over any operands.
pub fn curvalique_control(
    nodes: &mut [u64],
    slots: &mut [u32],
    count: &mut u64,
    size: &mut usize,
    code: u32,
    operands: &[u32],
    id: &mut u64,
) -> u64
    ensures leaves { Leaves (M.store (M.control code operands.now))
        (lent_memory nodes.old slots.old count.old size.old)
        (unless_refused result (M.stored id.new)) (lent_memory nodes.new slots.new count.new
        size.new) }
    ensures outputs_stay { OutputsStay result (id.old ∷ []) (id.new ∷ []) }
{
    make(
        nodes,
        slots,
        count,
        size,
        Call::Control { code, operands },
        id,
    )
}
