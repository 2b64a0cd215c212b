// Variables and constants.
ghost use Rattle.std.specs.Prelude.{[], ◌∷◌};
ghost use Rattle.definitions.specs.Machine as M;
ghost use Rattle.store.specs.Memory.{Leaves};
ghost use Rattle.outputs.specs.Calls.{lent_memory, unless_refused, OutputsStay};

// A variable, by its symbol.
#[unsafe(no_mangle)]
pub extern "C" fn curvalique_variable(
    nodes: &mut [u64],
    slots: &mut [u32],
    count: &mut u64,
    size: &mut usize,
    symbol: u32,
    id: &mut u64,
) -> u64
    ensures leaves { Leaves (M.store (M.variable symbol)) (lent_memory nodes.old slots.old count.old
        size.old) (unless_refused result (M.stored id.new))
        (lent_memory nodes.new slots.new count.new size.new) }
    ensures outputs_stay { OutputsStay result (id.old ∷ []) (id.new ∷ []) }
{
    curvalique::leaves::curvalique_variable(nodes, slots, count, size, symbol, id)
}

// A constant, by its binary64 bits.
#[unsafe(no_mangle)]
pub extern "C" fn curvalique_constant(
    nodes: &mut [u64],
    slots: &mut [u32],
    count: &mut u64,
    size: &mut usize,
    bits: u64,
    id: &mut u64,
) -> u64
    ensures leaves { Leaves (M.store (M.constant bits)) (lent_memory nodes.old slots.old count.old
        size.old) (unless_refused result (M.stored id.new))
        (lent_memory nodes.new slots.new count.new size.new) }
    ensures outputs_stay { OutputsStay result (id.old ∷ []) (id.new ∷ []) }
{
    curvalique::leaves::curvalique_constant(nodes, slots, count, size, bits, id)
}
