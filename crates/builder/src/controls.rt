// Controls.
ghost use Rattle.definitions.specs.Machine as M;
ghost use Rattle.builder.specs.Stores.{Stores};

use arena::DagArena;
use building::build;
use kinds::{CONTROL, FOR_LOOP, IF_ELSE, SELECT};
use store::Built;

// Select, over three operands.
pub fn select(
    nodes: &mut [u64],
    slots: &mut [u32],
    arena: DagArena,
    a: u32,
    b: u32,
    c: u32,
) -> Built
    ensures { Stores (M.select a b c)
        nodes.old slots.old arena nodes.new slots.new result }
{
    build(nodes, slots, arena, true, CONTROL, SELECT, 0, &[a, b, c])
}

// IfElse, over three operands.
pub fn if_else(
    nodes: &mut [u64],
    slots: &mut [u32],
    arena: DagArena,
    a: u32,
    b: u32,
    c: u32,
) -> Built
    ensures { Stores (M.if_else a b c)
        nodes.old slots.old arena nodes.new slots.new result }
{
    build(nodes, slots, arena, true, CONTROL, IF_ELSE, 0, &[a, b, c])
}

// ForLoop, over four operands.
pub fn for_loop(
    nodes: &mut [u64],
    slots: &mut [u32],
    arena: DagArena,
    a: u32,
    b: u32,
    c: u32,
    d: u32,
) -> Built
    ensures { Stores (M.for_loop a b c d)
        nodes.old slots.old arena nodes.new slots.new result }
{
    build(
        nodes,
        slots,
        arena,
        true,
        CONTROL,
        FOR_LOOP,
        0,
        &[a, b, c, d],
    )
}

/// Any control, by its code, over any operands.
pub fn control(
    nodes: &mut [u64],
    slots: &mut [u32],
    arena: DagArena,
    code: u32,
    operands: &[u32],
) -> Built
    ensures { Stores (M.control code operands.now)
        nodes.old slots.old arena nodes.new slots.new result }
{
    let payload = u64::from(code);
    build(
        nodes,
        slots,
        arena,
        payload <= FOR_LOOP,
        CONTROL,
        payload,
        0,
        operands,
    )
}
