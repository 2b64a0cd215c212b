// The strict patterns. They tell constants by their bits, so that +0.0 is no identity of a sum, nor -0.0 of a difference.
#![tactic(auto)]

ghost use Rattle.std.specs.Prelude.{◌≡◌, [], ◌∷◌};
ghost use Rattle.definitions.specs.Node as N;
ghost use Rattle.definitions.specs.Strict as S;
ghost use Rattle.definitions.specs.Walk.{strict};
ghost use Rattle.store.specs.View.{nodes_in};
ghost use Rattle.store.specs.Lookup.{Lookup};
ghost use Rattle.decisions.specs.Deciding.{Both, Decides};
ghost use Rattle.decisions.specs.Fired.{Fires};
ghost use Rattle.strict_patterns.specs.Strictly.{neutral, either_neutral};

use arena::node::BITS_OF_ONE;
use decisions::Replacement;
use decisions::firing::{Decision, Pattern, first_function};
use decisions::folding::constant_fold;
use fold::BITS_OF_ZERO;
use kinds::{ADD, CONSTANT, DIV, MUL, SUB};

// The bits of -0.0.
const BITS_OF_MINUS_ZERO: u64 = 0x8000_0000_0000_0000;

// Whether a node is the constant of these bits.
fn is_constant_of(nodes: &[u64], count: u64, id: u64, bits: u64) -> bool
    requires { Lookup nodes.now count id }
    ensures { result ≡ S.is_constant_of bits (N.at (nodes_in nodes.now count) id) }
{
    store::kind(nodes, count, id) == CONSTANT && store::payload(nodes, count, id) == bits
}

// An operand, beside the constant of these bits.
fn neutral(nodes: &[u64], count: u64, operand: u64, constant: u64, bits: u64) -> Option<Replacement>
    requires { Both nodes.now count operand constant }
    ensures { Decides nodes.now count (neutral bits operand constant) result }
{
    if is_constant_of(nodes, count, constant, bits) {
        return Some(Replacement::Id(operand));
    }
    None
}

// One operand beside the other, which is that constant: the second is looked at first.
fn either_neutral(nodes: &[u64], count: u64, one: u64, other: u64, bits: u64) -> Option<Replacement>
    requires { Both nodes.now count one other }
    ensures { Decides nodes.now count (either_neutral bits one other) result }
{
    neutral(nodes, count, one, other, bits).or_else(|| neutral(nodes, count, other, one, bits))
}

// `x + (-0.0) -> x` and `(-0.0) + x -> x`, `x - (+0.0) -> x`, `1 * x -> x` and `x * 1 -> x`, `x / 1 -> x`.
#[tactic(auto, unfolding(definitions::specs::Strict::strict_identities))]
fn strict_identity(nodes: &[u64], count: u64, kind: u64, lhs: u64, rhs: u64) -> Option<Replacement>
    requires { Both nodes.now count lhs rhs }
    ensures { Decides nodes.now count (λ l ns. S.strict_identities ns kind lhs rhs) result }
{
    match kind {
        ADD => either_neutral(nodes, count, lhs, rhs, BITS_OF_MINUS_ZERO),
        SUB => neutral(nodes, count, lhs, rhs, BITS_OF_ZERO),
        MUL => either_neutral(nodes, count, rhs, lhs, BITS_OF_ONE),
        DIV => neutral(nodes, count, lhs, rhs, BITS_OF_ONE),
        _ => None,
    }
}

/// The strict pattern that fits an operator of two operands. Folding declines a NaN and either zero as divisor.
pub fn strict_pattern(nodes: &[u64], count: u64, kind: u64, lhs: u64, rhs: u64) -> Option<Decision>
    requires { Both nodes.now count lhs rhs }
    ensures { Fires strict nodes.now count kind (lhs ∷ rhs ∷ []) result }
{
    if let Some(replacement) = strict_identity(nodes, count, kind, lhs, rhs) {
        return Some(Decision {
            replacement,
            pattern: first_function(kind),
        });
    }
    let replacement = constant_fold(nodes, count, kind, lhs, rhs)?;
    Some(Decision {
        replacement,
        pattern: Pattern::ConstantFold,
    })
}
