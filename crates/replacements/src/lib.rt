// Carrying out a replacement through the store, which alone makes nodes.
#![tactic(auto)]

ghost use Rattle.std.specs.Prelude.{[], ◌∷◌};
ghost use Rattle.store.specs.Held.{held, SameLists};
ghost use Rattle.decisions.specs.Carrying.{constant_of, operator_of, beside_constant, carried};
ghost use Rattle.decisions.specs.Carrying.{NumberBits, ReplacementLow, Operand, TwoOperands};
ghost use Rattle.replacements.specs.Building.{BuildsIn};

use arena::REORDERABLE;
use decisions::{Replacement, Side};
use kinds::CONSTANT;
use refusal::Refusal;
use store::{Parts, Store};

fn intern_constant(store: &mut Store, bits: u64) -> Result<u64, Refusal>
    requires { NumberBits bits }
    ensures same { SameLists store.old store.new }
    ensures builds { BuildsIn (constant_of bits) (held store.old) result (held store.new) }
{
    store.intern(Parts {
        kind: CONSTANT,
        payload: bits,
        flags: 0,
        children: &[],
    })
}

// An Add or a Mul of two operands.
fn intern_operator(store: &mut Store, kind: u64, lhs: u64, rhs: u64) -> Result<u64, Refusal>
    requires { TwoOperands store.old.count kind lhs rhs }
    ensures same { SameLists store.old store.new }
    ensures builds { BuildsIn (operator_of kind (lhs ∷ rhs ∷ [])) (held store.old) result (held store.new) }
{
    let operands = [lhs as u32, rhs as u32];
    store.intern(Parts {
        kind,
        payload: 0,
        flags: REORDERABLE,
        children: &operands,
    })
}

// A constant, and then an operator over it and another operand, the constant on its side. Stopped in between, the constant stays.
fn beside_constant(
    store: &mut Store,
    kind: u64,
    bits: u64,
    other: u64,
    side: Side,
) -> Result<u64, Refusal>
    requires { Operand store.old.count kind other × NumberBits bits }
    ensures same { SameLists store.old store.new }
    ensures builds { BuildsIn (beside_constant side kind bits other) (held store.old) result (held store.new) }
{
    let id = intern_constant(store, bits)?;
    match side {
        Side::Left => intern_operator(store, kind, id, other),
        Side::Right => intern_operator(store, kind, other, id),
    }
}

/// What a replacement says, built.
///
/// # Errors
///
/// `NoNodePlace` or `NoSlotPlace`. A constant that was made before its operator stays.
pub fn carry_out(store: &mut Store, replacement: Replacement) -> Result<u64, Refusal>
    requires { ReplacementLow store.old.count replacement }
    ensures same { SameLists store.old store.new }
    ensures builds { BuildsIn (carried replacement) (held store.old) result (held store.new) }
{
    match replacement {
        Replacement::Id(id) => Ok(id),
        Replacement::Constant(bits) => intern_constant(store, bits),
        Replacement::BesideConstant {
            kind,
            bits,
            other,
            side,
        } => beside_constant(store, kind, bits, other, side),
    }
}
