// Merging: a constant beside a product or sum that has a constant of its own.
#![tactic(auto)]

ghost use Rattle.std.specs.Prelude.{◌≡◌};
ghost use Rattle.definitions.specs.Node as N;
ghost use Rattle.definitions.specs.Patterns as P;
ghost use Rattle.store.specs.View.{nodes_in};
ghost use Rattle.store.specs.Lookup.{Lookup};
ghost use Rattle.decisions.specs.Deciding.{Both, Decides};
ghost use Rattle.merges.specs.Merging.{SplitsConstant};

use decisions::constants::constant_value;
use decisions::{Replacement, Side};
use kinds::{ADD, MUL};

// The constant among two children: its bits, its side, and the other child. Where both are constants the left one is taken.
#[derive(Clone, Copy)]
struct ConstantChild {
    bits: u64,
    side: Side,
    other: u64,
}

// The constant among the children of a node of a kind that has two.
fn constant_child(nodes: &[u64], count: u64, kind: u64, id: u64) -> Option<ConstantChild>
    requires { Lookup nodes.now count id }
    ensures { SplitsConstant (nodes_in nodes.now count) count kind id result }
{
    if store::kind(nodes, count, id) != kind || store::arity(nodes, count, id) != 2 {
        return None;
    }
    let lhs = store::child(nodes, count, id, 0);
    let rhs = store::child(nodes, count, id, 1);
    if let Some(bits) = constant_value(nodes, count, lhs) {
        return Some(ConstantChild {
            bits,
            side: Side::Left,
            other: rhs,
        });
    }
    let bits = constant_value(nodes, count, rhs)?;
    Some(ConstantChild {
        bits,
        side: Side::Right,
        other: lhs,
    })
}

// A constant beside a product: the product's constant keeps its side.
fn mul_merge(nodes: &[u64], count: u64, constant: u64, product: u64) -> Option<Replacement>
    requires { Both nodes.now count constant product }
    ensures { Decides nodes.now count (λ l ns. P.mul_merge l ns (P.constant_value (N.at ns constant))
        (P.pair_of N.mul_kind (N.at ns product))) result }
{
    let factor = constant_value(nodes, count, constant)?;
    let child = constant_child(nodes, count, MUL, product)?;
    let bits = fold::fold(MUL, child.bits, factor)?;
    Some(Replacement::BesideConstant {
        kind: MUL,
        bits,
        other: child.other,
        side: child.side,
    })
}

// `(c * x) * d` and `(x * c) * d`, then `d * (c * x)` and `d * (x * c)`.
#[tactic(auto, unfolding(definitions::specs::Patterns::mul_coef_merge))]
fn mul_coef_merge(nodes: &[u64], count: u64, lhs: u64, rhs: u64) -> Option<Replacement>
    requires { Both nodes.now count lhs rhs }
    ensures { Decides nodes.now count (λ l ns. P.mul_coef_merge l ns lhs rhs) result }
{
    mul_merge(nodes, count, rhs, lhs).or_else(|| mul_merge(nodes, count, lhs, rhs))
}

// `(c + x) + d -> x + (c + d)` and `(x + c) + d -> x + (c + d)`; `d + (c + x)` stays.
fn add_coef_merge(nodes: &[u64], count: u64, lhs: u64, rhs: u64) -> Option<Replacement>
    requires { Both nodes.now count lhs rhs }
    ensures { Decides nodes.now count (λ l ns. P.add_coef_merge l ns lhs rhs) result }
{
    let term = constant_value(nodes, count, rhs)?;
    let child = constant_child(nodes, count, ADD, lhs)?;
    let bits = fold::fold(ADD, child.bits, term)?;
    Some(Replacement::BesideConstant {
        kind: ADD,
        bits,
        other: child.other,
        side: Side::Right,
    })
}

/// The merge of an operator of two operands.
#[tactic(auto, unfolding(definitions::specs::Patterns::merges))]
pub fn merge(nodes: &[u64], count: u64, kind: u64, lhs: u64, rhs: u64) -> Option<Replacement>
    requires { Both nodes.now count lhs rhs }
    ensures { Decides nodes.now count (λ l ns. P.merges l ns kind lhs rhs) result }
{
    match kind {
        MUL => mul_coef_merge(nodes, count, lhs, rhs),
        ADD => add_coef_merge(nodes, count, lhs, rhs),
        _ => None,
    }
}
