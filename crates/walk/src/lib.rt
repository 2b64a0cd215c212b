// The walk: the Rust's rewrite_iterative with rebuild_or_match, one step a turn of its loop; and the strict walk, which keeps every number as
// it is.
#![tactic(auto)]

ghost use Rattle.definitions.specs.Machine as M;
ghost use Rattle.definitions.specs.Modes.{mode_of};
ghost use Rattle.store.specs.Held.{held, SameLists};
ghost use Rattle.store.specs.Memory.{memory, Leaves};
ghost use Rattle.rebuild.specs.Memory.{SoundMemory};
ghost use Rattle.runs.specs.Answers.{meaning};

use arena::DagArena;
use definitions::mode::Mode;
use refusal::Refusal;
pub use runs::Simplified;
use runs::state::Walk;
use store::Store;
use turns::state::MOST_DEPTH;

/// An answer, and the store's count and size after it.
#[derive(Clone, Copy)]
pub struct WalkOutcome {
    pub answer: Result<Simplified, Refusal>,
    pub arena: DagArena,
}

/// A walk with any arguments.
///
/// # Errors
///
/// `BadCode` for a depth limit over 255 and then `BadOperand` for a root that is no node, and nothing is changed; `NoNodePlace` or
/// `NoSlotPlace`, and what was interned and marked before stays.
pub fn simplify_in(
    store: &mut Store,
    mode: Mode,
    root: u32,
    depth: u32,
    budget: u64,
) -> Result<Simplified, Refusal>
    ensures same { SameLists store.old store.new }
    ensures leaves { Leaves (M.simplify (mode_of mode) root depth budget) (held store.old) (meaning result) (held store.new) }
{
    if MOST_DEPTH < depth {
        return Err(Refusal::BadCode);
    }
    let id = u64::from(root);
    if store.count <= id {
        return Err(Refusal::BadOperand);
    }
    let mut walk = Walk::new(mode, id, depth as usize);
    runs::run::run(store, &mut walk, id, budget)
}

/// A walk with any arguments on lent lists that are known to be sound. It stays over slices since docs/ARCHITECTURE.md names it.
pub fn simplify_sound(
    nodes: &mut [u64],
    slots: &mut [u32],
    arena: DagArena,
    mode: Mode,
    root: u32,
    depth: u32,
    budget: u64,
) -> WalkOutcome
    requires { SoundMemory (memory nodes.old slots.old arena) }
    ensures { Leaves (M.simplify (mode_of mode) root depth budget) (memory nodes.old slots.old arena)
        (meaning result.answer) (memory nodes.new slots.new result.arena) }
{
    let mut store = Store::over(nodes, slots, arena);
    let answer = simplify_in(&mut store, mode, root, depth, budget);
    WalkOutcome {
        answer,
        arena: store.arena(),
    }
}

/// A walk with any arguments on any store, which is audited first.
pub fn simplify(
    nodes: &mut [u64],
    slots: &mut [u32],
    arena: DagArena,
    mode: Mode,
    root: u32,
    depth: u32,
    budget: u64,
) -> WalkOutcome
    ensures { Leaves (M.simplify (mode_of mode) root depth budget) (memory nodes.old slots.old arena)
        (meaning result.answer) (memory nodes.new slots.new result.arena) }
{
    if !store::audit(nodes, slots, arena) {
        return WalkOutcome {
            answer: Err(Refusal::NotSound),
            arena,
        };
    }
    simplify_sound(nodes, slots, arena, mode, root, depth, budget)
}
