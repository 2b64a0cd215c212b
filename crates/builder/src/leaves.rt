// Variables and constants.
ghost use Rattle.definitions.specs.Machine as M;
ghost use Rattle.builder.specs.Stores.{Stores};

use arena::DagArena;
use building::build;
use kinds::{CONSTANT, VARIABLE};
use store::Built;

/// A variable, by its symbol.
pub fn variable(nodes: &mut [u64], slots: &mut [u32], arena: DagArena, symbol: u32) -> Built
    ensures { Stores (M.variable symbol) nodes.old slots.old arena
        nodes.new slots.new result }
{
    build(
        nodes,
        slots,
        arena,
        true,
        VARIABLE,
        u64::from(symbol),
        0,
        &[],
    )
}

/// A constant, by its binary64 bits.
pub fn constant(nodes: &mut [u64], slots: &mut [u32], arena: DagArena, bits: u64) -> Built
    ensures { Stores (M.constant bits) nodes.old slots.old arena nodes.new slots.new result }
{
    build(nodes, slots, arena, true, CONSTANT, bits, 0, &[])
}
