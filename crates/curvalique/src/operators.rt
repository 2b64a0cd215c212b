// Operators.
ghost use Rattle.std.specs.Prelude.{[], ◌∷◌};
ghost use Rattle.definitions.specs.Machine as M;
ghost use Rattle.store.specs.Memory.{Leaves};
ghost use Rattle.outputs.specs.Calls.{lent_memory, unless_refused, OutputsStay};

use crate::performing::make;
use store_calls::{Call, codes};

// The sum of two.
pub fn curvalique_add(
    nodes: &mut [u64],
    slots: &mut [u32],
    count: &mut u64,
    size: &mut usize,
    a: u32,
    b: u32,
    id: &mut u64,
) -> u64
    ensures leaves { Leaves (M.store (M.add a b)) (lent_memory nodes.old slots.old count.old
        size.old) (unless_refused result (M.stored id.new))
        (lent_memory nodes.new slots.new count.new size.new) }
    ensures outputs_stay { OutputsStay result (id.old ∷ []) (id.new ∷ []) }
{
    let call = Call::Operator {
        code: codes::ADD,
        flags: codes::REORDERABLE,
        operands: &[a, b],
    };
    make(nodes, slots, count, size, call, id)
}

// The first minus the second.
pub fn curvalique_sub(
    nodes: &mut [u64],
    slots: &mut [u32],
    count: &mut u64,
    size: &mut usize,
    a: u32,
    b: u32,
    id: &mut u64,
) -> u64
    ensures leaves { Leaves (M.store (M.sub a b)) (lent_memory nodes.old slots.old count.old
        size.old) (unless_refused result (M.stored id.new))
        (lent_memory nodes.new slots.new count.new size.new) }
    ensures outputs_stay { OutputsStay result (id.old ∷ []) (id.new ∷ []) }
{
    let call = Call::Operator {
        code: codes::SUB,
        flags: codes::NO_FLAGS,
        operands: &[a, b],
    };
    make(nodes, slots, count, size, call, id)
}

// The product of two.
pub fn curvalique_mul(
    nodes: &mut [u64],
    slots: &mut [u32],
    count: &mut u64,
    size: &mut usize,
    a: u32,
    b: u32,
    id: &mut u64,
) -> u64
    ensures leaves { Leaves (M.store (M.mul a b)) (lent_memory nodes.old slots.old count.old
        size.old) (unless_refused result (M.stored id.new))
        (lent_memory nodes.new slots.new count.new size.new) }
    ensures outputs_stay { OutputsStay result (id.old ∷ []) (id.new ∷ []) }
{
    let call = Call::Operator {
        code: codes::MUL,
        flags: codes::REORDERABLE,
        operands: &[a, b],
    };
    make(nodes, slots, count, size, call, id)
}

// The first over the second.
pub fn curvalique_div(
    nodes: &mut [u64],
    slots: &mut [u32],
    count: &mut u64,
    size: &mut usize,
    a: u32,
    b: u32,
    id: &mut u64,
) -> u64
    ensures leaves { Leaves (M.store (M.div a b)) (lent_memory nodes.old slots.old count.old
        size.old) (unless_refused result (M.stored id.new))
        (lent_memory nodes.new slots.new count.new size.new) }
    ensures outputs_stay { OutputsStay result (id.old ∷ []) (id.new ∷ []) }
{
    let call = Call::Operator {
        code: codes::DIV,
        flags: codes::NO_FLAGS,
        operands: &[a, b],
    };
    make(nodes, slots, count, size, call, id)
}

// The first to the power of the second.
pub fn curvalique_pow(
    nodes: &mut [u64],
    slots: &mut [u32],
    count: &mut u64,
    size: &mut usize,
    a: u32,
    b: u32,
    id: &mut u64,
) -> u64
    ensures leaves { Leaves (M.store (M.pow a b)) (lent_memory nodes.old slots.old count.old
        size.old) (unless_refused result (M.stored id.new))
        (lent_memory nodes.new slots.new count.new size.new) }
    ensures outputs_stay { OutputsStay result (id.old ∷ []) (id.new ∷ []) }
{
    let call = Call::Operator {
        code: codes::POW,
        flags: codes::NO_FLAGS,
        operands: &[a, b],
    };
    make(nodes, slots, count, size, call, id)
}

// The first modulo the second.
pub fn curvalique_modulo(
    nodes: &mut [u64],
    slots: &mut [u32],
    count: &mut u64,
    size: &mut usize,
    a: u32,
    b: u32,
    id: &mut u64,
) -> u64
    ensures leaves { Leaves (M.store (M.modulo a b)) (lent_memory nodes.old slots.old count.old
        size.old) (unless_refused result (M.stored id.new))
        (lent_memory nodes.new slots.new count.new size.new) }
    ensures outputs_stay { OutputsStay result (id.old ∷ []) (id.new ∷ []) }
{
    let call = Call::Operator {
        code: codes::MOD,
        flags: codes::NO_FLAGS,
        operands: &[a, b],
    };
    make(nodes, slots, count, size, call, id)
}

// The opposite.
pub fn curvalique_neg(
    nodes: &mut [u64],
    slots: &mut [u32],
    count: &mut u64,
    size: &mut usize,
    a: u32,
    id: &mut u64,
) -> u64
    ensures leaves { Leaves (M.store (M.neg a)) (lent_memory nodes.old slots.old count.old
        size.old) (unless_refused result (M.stored id.new))
        (lent_memory nodes.new slots.new count.new size.new) }
    ensures outputs_stay { OutputsStay result (id.old ∷ []) (id.new ∷ []) }
{
    let call = Call::Operator {
        code: codes::NEG,
        flags: codes::NO_FLAGS,
        operands: &[a],
    };
    make(nodes, slots, count, size, call, id)
}

// Any operator, by its code, with any flags and operands.
pub fn curvalique_operator(
    nodes: &mut [u64],
    slots: &mut [u32],
    count: &mut u64,
    size: &mut usize,
    code: u32,
    flags: u32,
    operands: &[u32],
    id: &mut u64,
) -> u64
    ensures leaves { Leaves (M.store (M.operator code flags operands.now))
        (lent_memory nodes.old slots.old count.old size.old)
        (unless_refused result (M.stored id.new)) (lent_memory nodes.new slots.new count.new
        size.new) }
    ensures outputs_stay { OutputsStay result (id.old ∷ []) (id.new ∷ []) }
{
    let call = Call::Operator {
        code,
        flags,
        operands,
    };
    make(nodes, slots, count, size, call, id)
}
