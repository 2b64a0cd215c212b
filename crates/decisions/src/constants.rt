// The constant that a node is, and a test of the patterns on two constants.
ghost use Rattle.std.specs.Prelude.{◌≡◌, ◌&&◌};
ghost use Rattle.definitions.specs.Node as N;
ghost use Rattle.definitions.specs.Patterns as P;
ghost use Rattle.store.specs.View.{nodes_in};
ghost use Rattle.store.specs.Lookup.{Lookup};
ghost use Rattle.decisions.specs.Reading.{value_of};

use kinds::CONSTANT;

/// The bits of the constant that a node is; `None` for any other node.
#[tactic(auto, unfolding(definitions::specs::Patterns::constant_value))]
pub fn constant_value(nodes: &[u64], count: u64, id: u64) -> Option<u64>
    requires { Lookup nodes.now count id }
    ensures { value_of result ≡ P.constant_value (N.at (nodes_in nodes.now count) id) }
{
    if store::kind(nodes, count, id) == CONSTANT {
        Some(store::payload(nodes, count, id))
    } else {
        None
    }
}

/// Whether a constant is zero, beside one that is finite.
pub fn vanishes(zero: Option<u64>, finite: Option<u64>) -> bool
    ensures { result ≡ (P.is_zero (value_of zero) && P.is_finite (value_of finite)) }
{
    zero.is_some_and(fold::is_zero) && finite.is_some_and(fold::is_finite)
}
