// The identities of patterns.rs, in its order. Each decides over the nodes as they are.
#![tactic(auto)]

ghost use Rattle.definitions.specs.Patterns as P;
ghost use Rattle.store.specs.Lookup.{Lookup};
ghost use Rattle.decisions.specs.Deciding.{Both, Decides};

use arena::node::BITS_OF_ONE;
use decisions::Replacement;
use decisions::constants::{constant_value, vanishes};
use fold::{BITS_OF_ZERO, is_one, is_positive, is_zero};
use kinds::{ADD, DIV, MUL, NEG, POW, SUB};

// `x + 0 -> x` and `0 + x -> x`.
#[tactic(auto, unfolding(definitions::specs::Patterns::add_zero))]
fn add_zero(nodes: &[u64], count: u64, lhs: u64, rhs: u64) -> Option<Replacement>
    requires { Both nodes.now count lhs rhs }
    ensures { Decides nodes.now count (λ l ns. P.add_zero l ns lhs rhs) result }
{
    if constant_value(nodes, count, lhs).is_some_and(is_zero) {
        return Some(Replacement::Id(rhs));
    }
    if constant_value(nodes, count, rhs).is_some_and(is_zero) {
        return Some(Replacement::Id(lhs));
    }
    None
}

// `x - 0 -> x` and `x - x -> 0`.
#[tactic(auto, unfolding(definitions::specs::Patterns::sub_identity), using(crate::proofs::Constants::constants))]
fn sub_identity(nodes: &[u64], count: u64, lhs: u64, rhs: u64) -> Option<Replacement>
    requires { Both nodes.now count lhs rhs }
    ensures { Decides nodes.now count (λ l ns. P.sub_identity l ns lhs rhs) result }
{
    if constant_value(nodes, count, rhs).is_some_and(is_zero) {
        return Some(Replacement::Id(lhs));
    }
    if lhs == rhs {
        return Some(Replacement::Constant(BITS_OF_ZERO));
    }
    None
}

// `x * 0 -> 0` and `0 * x -> 0` where x is a finite constant, `1 * x -> x` and `x * 1 -> x`.
#[tactic(auto, unfolding(definitions::specs::Patterns::mul_identity), using(crate::proofs::Constants::constants))]
fn mul_identity(nodes: &[u64], count: u64, lhs: u64, rhs: u64) -> Option<Replacement>
    requires { Both nodes.now count lhs rhs }
    ensures { Decides nodes.now count (λ l ns. P.mul_identity l ns lhs rhs) result }
{
    let x = constant_value(nodes, count, lhs);
    let y = constant_value(nodes, count, rhs);
    if vanishes(x, y) || vanishes(y, x) {
        return Some(Replacement::Constant(BITS_OF_ZERO));
    }
    if x.is_some_and(is_one) {
        return Some(Replacement::Id(rhs));
    }
    if y.is_some_and(is_one) {
        return Some(Replacement::Id(lhs));
    }
    None
}

// `x / 1 -> x`, `0 / x -> 0`, and `x / x -> 1` where x is a constant other than zero.
#[tactic(auto, unfolding(definitions::specs::Patterns::div_identity), using(crate::proofs::Constants::constants))]
fn div_identity(nodes: &[u64], count: u64, lhs: u64, rhs: u64) -> Option<Replacement>
    requires { Both nodes.now count lhs rhs }
    ensures { Decides nodes.now count (λ l ns. P.div_identity l ns lhs rhs) result }
{
    if constant_value(nodes, count, rhs).is_some_and(is_one) {
        return Some(Replacement::Id(lhs));
    }
    let x = constant_value(nodes, count, lhs);
    if x.is_some_and(is_zero) {
        return Some(Replacement::Constant(BITS_OF_ZERO));
    }
    if lhs == rhs && x.is_some() {
        return Some(Replacement::Constant(BITS_OF_ONE));
    }
    None
}

// `x ^ 0 -> 1`, `x ^ 1 -> x`, `1 ^ x -> 1`, and `0 ^ x -> 0` where x is a constant above zero.
#[tactic(auto, unfolding(definitions::specs::Patterns::pow_identity), using(crate::proofs::Constants::constants))]
fn pow_identity(nodes: &[u64], count: u64, lhs: u64, rhs: u64) -> Option<Replacement>
    requires { Both nodes.now count lhs rhs }
    ensures { Decides nodes.now count (λ l ns. P.pow_identity l ns lhs rhs) result }
{
    let x = constant_value(nodes, count, lhs);
    let y = constant_value(nodes, count, rhs);
    if y.is_some_and(is_zero) {
        return Some(Replacement::Constant(BITS_OF_ONE));
    }
    if y.is_some_and(is_one) {
        return Some(Replacement::Id(lhs));
    }
    if x.is_some_and(is_one) {
        return Some(Replacement::Constant(BITS_OF_ONE));
    }
    if x.is_some_and(is_zero) && y.is_some_and(is_positive) {
        return Some(Replacement::Constant(BITS_OF_ZERO));
    }
    None
}

/// `--x -> x`: the operand of a Neg that is a Neg itself.
#[tactic(auto, using(crate::proofs::Negation::operand))]
pub fn neg_double(nodes: &[u64], count: u64, operand: u64) -> Option<Replacement>
    requires { Lookup nodes.now count operand }
    ensures { Decides nodes.now count (λ l ns. P.neg_double ns operand) result }
{
    if store::kind(nodes, count, operand) == NEG && store::arity(nodes, count, operand) == 1 {
        return Some(Replacement::Id(store::child(nodes, count, operand, 0)));
    }
    None
}

/// The identity of an operator of two operands.
#[tactic(auto, unfolding(definitions::specs::Patterns::identities))]
pub fn identity(nodes: &[u64], count: u64, kind: u64, lhs: u64, rhs: u64) -> Option<Replacement>
    requires { Both nodes.now count lhs rhs }
    ensures { Decides nodes.now count (λ l ns. P.identities l ns kind lhs rhs) result }
{
    match kind {
        ADD => add_zero(nodes, count, lhs, rhs),
        SUB => sub_identity(nodes, count, lhs, rhs),
        MUL => mul_identity(nodes, count, lhs, rhs),
        DIV => div_identity(nodes, count, lhs, rhs),
        POW => pow_identity(nodes, count, lhs, rhs),
        _ => None,
    }
}
