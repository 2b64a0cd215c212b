// Operators. `add` and `mul` give flags 3, `operator` takes flags 0 to 3, and the others give flags 0.
ghost use Rattle.definitions.specs.Machine as M;
ghost use Rattle.builder.specs.Stores.{Stores};

use arena::{DagArena, REORDERABLE};
use building::{build, is_operator};
use kinds::{ADD, DIV, MOD, MUL, NEG, POW, SUB};
use store::Built;

/// The sum of two.
pub fn add(nodes: &mut [u64], slots: &mut [u32], arena: DagArena, a: u32, b: u32) -> Built
    ensures { Stores (M.add a b) nodes.old slots.old arena nodes.new slots.new result }
{
    build(nodes, slots, arena, true, ADD, 0, REORDERABLE, &[a, b])
}

/// The first minus the second.
pub fn sub(nodes: &mut [u64], slots: &mut [u32], arena: DagArena, a: u32, b: u32) -> Built
    ensures { Stores (M.sub a b) nodes.old slots.old arena nodes.new slots.new result }
{
    build(nodes, slots, arena, true, SUB, 0, 0, &[a, b])
}

/// The product of two.
pub fn mul(nodes: &mut [u64], slots: &mut [u32], arena: DagArena, a: u32, b: u32) -> Built
    ensures { Stores (M.mul a b) nodes.old slots.old arena nodes.new slots.new result }
{
    build(nodes, slots, arena, true, MUL, 0, REORDERABLE, &[a, b])
}

/// The first over the second.
pub fn div(nodes: &mut [u64], slots: &mut [u32], arena: DagArena, a: u32, b: u32) -> Built
    ensures { Stores (M.div a b) nodes.old slots.old arena nodes.new slots.new result }
{
    build(nodes, slots, arena, true, DIV, 0, 0, &[a, b])
}

/// The first to the power of the second.
pub fn pow(nodes: &mut [u64], slots: &mut [u32], arena: DagArena, a: u32, b: u32) -> Built
    ensures { Stores (M.pow a b) nodes.old slots.old arena nodes.new slots.new result }
{
    build(nodes, slots, arena, true, POW, 0, 0, &[a, b])
}

/// The first modulo the second.
pub fn modulo(nodes: &mut [u64], slots: &mut [u32], arena: DagArena, a: u32, b: u32) -> Built
    ensures { Stores (M.modulo a b) nodes.old slots.old arena nodes.new slots.new result }
{
    build(nodes, slots, arena, true, MOD, 0, 0, &[a, b])
}

/// The opposite.
pub fn neg(nodes: &mut [u64], slots: &mut [u32], arena: DagArena, a: u32) -> Built
    ensures { Stores (M.neg a) nodes.old slots.old arena nodes.new slots.new result }
{
    build(nodes, slots, arena, true, NEG, 0, 0, &[a])
}

/// Any operator, by its code, with any flags and operands.
pub fn operator(
    nodes: &mut [u64],
    slots: &mut [u32],
    arena: DagArena,
    code: u32,
    flags: u32,
    operands: &[u32],
) -> Built
    ensures { Stores (M.operator code flags operands.now) nodes.old slots.old arena
        nodes.new slots.new result }
{
    let code = u64::from(code);
    let flags = u64::from(flags);
    let listed = is_operator(code, flags);
    build(nodes, slots, arena, listed, ADD + code, 0, flags, operands)
}
