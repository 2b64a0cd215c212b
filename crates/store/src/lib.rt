// The store: lent words and slots as the plain machine's list of nodes. `Store` holds them, and its type says that they are sound. The functions
// beside it are the same over slices, with the counts apart, as C lends them.
#![tactic(auto)]

pub mod holding;
pub mod interning;
pub mod lookup;

ghost use Rattle.definitions.specs.Says.{Says};
ghost use Rattle.store.specs.Sound.{Sound};

use arena::DagArena;
pub use arena::Parts;
pub use holding::Store;
pub use interning::{REFUSALS, answer_in, intern, intern_likely};
pub use lookup::{arity, child, has_children, is_canonical, kind, mark, payload};

/// The id of a node, or the number of a refusal, as it is handed on beside the counts.
#[derive(Clone, Copy)]
pub enum NodeAnswer {
    Id(u64),
    Refused(u64),
}

/// An answer, and the counts of the store after it.
#[derive(Clone, Copy)]
pub struct Built {
    pub answer: NodeAnswer,
    pub arena: DagArena,
}

/// Whether the lent words and slots are a sound store with these counts.
pub fn audit(nodes: &[u64], slots: &[u32], arena: DagArena) -> bool
    ensures { Says result (Sound nodes.now slots.now arena) }
{
    table_audit::audit(nodes, slots, arena)
}
