// Functions.
ghost use Rattle.definitions.specs.Machine as M;
ghost use Rattle.builder.specs.Stores.{Stores};

use arena::DagArena;
use building::build;
use kinds::FUNCTION;
use store::Built;

/// A function, by its number, over its operands.
pub fn function(
    nodes: &mut [u64],
    slots: &mut [u32],
    arena: DagArena,
    number: u32,
    operands: &[u32],
) -> Built
    ensures { Stores (M.function number operands.now) nodes.old slots.old arena nodes.new
        slots.new result }
{
    build(
        nodes,
        slots,
        arena,
        true,
        FUNCTION,
        u64::from(number),
        0,
        operands,
    )
}
