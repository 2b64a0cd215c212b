// Whether a threshold keeps a term: if its magnitude is at least the threshold. That of a constant is its absolute value, that of another
// term 1.0.
#![tactic(auto)]

ghost use Rattle.std.specs.Prelude.{◌≡◌};
ghost use Rattle.std.specs.Float.{binary64};
ghost use Rattle.std.specs.Float.Ieee.{of_bits};
ghost use Rattle.definitions.specs.Node.{at};
ghost use Rattle.definitions.specs.Patterns.{constant_value};
ghost use Rattle.definitions.specs.Prune as Prune;
ghost use Rattle.store.specs.View.{nodes_in};
ghost use Rattle.store.specs.Lookup.{Lookup};

use arena::node::BITS_OF_ONE;
use kinds::CONSTANT;

// The bits of a number whose absolute value is the term's magnitude.
fn magnitude_of_term(nodes: &[u64], count: u64, id: u64) -> u64
    requires { Lookup nodes.now count id }
    ensures { Prune.absolute (of_bits binary64 result) ≡ Prune.magnitude (constant_value (at (nodes_in nodes.now count) id)) }
{
    if store::kind(nodes, count, id) == CONSTANT {
        store::payload(nodes, count, id)
    } else {
        BITS_OF_ONE
    }
}

/// Whether a threshold, by its bits, keeps a term.
pub fn keeps(nodes: &[u64], count: u64, threshold: u64, id: u64) -> bool
    requires { Lookup nodes.now count id }
    ensures { result ≡ Prune.keeps (nodes_in nodes.now count) (of_bits binary64 threshold) id }
{
    fold::reaches(magnitude_of_term(nodes, count, id), threshold)
}
