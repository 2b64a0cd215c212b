// The crate holds definitions (specs/), the proof of the promise over them (proofs/), the numbers of the refusals and the modes of a walk.
// A crate has at least one function: this one says how many children a node has at most.
#![tactic(auto)]

pub mod mode;
pub mod refusals;

ghost use Rattle.std.specs.Prelude.{◌≡◌};
ghost use Rattle.definitions.specs.Limits.{most_children};

/// The most children of a node: those of a function.
pub const MOST_CHILDREN: usize = 16;

pub fn most_children() -> usize
    ensures { result ≡ most_children }
{
    MOST_CHILDREN
}
