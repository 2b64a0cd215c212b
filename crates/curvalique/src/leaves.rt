// Variables and constants.
ghost use Rattle.std.specs.Prelude.{[], ◌∷◌};
ghost use Rattle.definitions.specs.Machine as M;
ghost use Rattle.store.specs.Memory.{Leaves};
ghost use Rattle.outputs.specs.Calls.{lent_memory, unless_refused, OutputsStay};

use crate::performing::make;
use store_calls::Call;

// A variable, by its symbol.
pub fn curvalique_variable(
    nodes: &mut [u64],
    slots: &mut [u32],
    count: &mut u64,
    size: &mut usize,
    symbol: u32,
    id: &mut u64,
) -> u64
    ensures leaves { Leaves (M.store (M.variable symbol)) (lent_memory nodes.old slots.old count.old
        size.old) (unless_refused result (M.stored id.new))
        (lent_memory nodes.new slots.new count.new size.new) }
    ensures outputs_stay { OutputsStay result (id.old ∷ []) (id.new ∷ []) }
{
    make(nodes, slots, count, size, Call::Variable(symbol), id)
}

// A constant, by its binary64 bits.
pub fn curvalique_constant(
    nodes: &mut [u64],
    slots: &mut [u32],
    count: &mut u64,
    size: &mut usize,
    bits: u64,
    id: &mut u64,
) -> u64
    ensures leaves { Leaves (M.store (M.constant bits)) (lent_memory nodes.old slots.old count.old
        size.old) (unless_refused result (M.stored id.new))
        (lent_memory nodes.new slots.new count.new size.new) }
    ensures outputs_stay { OutputsStay result (id.old ∷ []) (id.new ∷ []) }
{
    make(nodes, slots, count, size, Call::Constant(bits), id)
}
