// Pruning: an additive chain without the terms whose magnitude is below a threshold.
#![tactic(auto)]

pub mod threshold;

ghost use Rattle.std.specs.Prelude.{◌<◌, ◌≡◌, length};
ghost use Rattle.definitions.specs.Limits.{most_terms};
ghost use Rattle.definitions.specs.Machine as M;
ghost use Rattle.store.specs.View.{Sound};
ghost use Rattle.store.specs.Memory.{memory, Leaves};
ghost use Rattle.store.specs.Held.{held, SameLists};
ghost use Rattle.pruner.specs.Answers.{meaning, FlattensIn, PrunesChain, PrunesRoot, PrunesCall, PrunesAudited};

use arena::DagArena;
use chains::{MOST_TERMS, Terms};
use kinds::ADD;
use refusal::Refusal;
use store::Store;

/// What a prune answers.
#[derive(Clone, Copy, Debug, PartialEq, Eq)]
pub struct Pruned {
    /// The id that stands for the pruned chain.
    pub id: u64,
    /// The number of terms that were kept.
    pub kept: u64,
    /// The number of terms that were dropped.
    pub dropped: u64,
}

/// An answer, and the store's count and size after it.
#[derive(Clone, Copy)]
pub struct PruneOutcome {
    pub answer: Result<Pruned, Refusal>,
    pub arena: DagArena,
}

// The terms of a chain that a threshold keeps.
fn kept_terms(
    store: &Store,
    root: u64,
    threshold: u64,
    terms: &mut [u32; MOST_TERMS],
) -> Result<Terms, Refusal>
    requires { (root < store.now.count) × (length terms.old ≡ most_terms) }
    ensures { FlattensIn (held store.now) root threshold result terms.new }
{
    chains::flatten(store.nodes, store.count, root, threshold, terms)
}

// The chain under an Add: flattened to the terms kept, and summed again.
fn prune_chain(store: &mut Store, root: u64, threshold: u64) -> Result<Pruned, Refusal>
    requires { root < store.old.count }
    ensures same { SameLists store.old store.new }
    ensures prunes { PrunesChain (held store.old) root threshold result (held store.new) }
{
    let mut terms = [0u32; MOST_TERMS];
    let flat = kept_terms(store, root, threshold, &mut terms)?;
    let id = sums::sum_of_terms(store, &terms, flat.from, flat.kept)?;
    Ok(Pruned {
        id,
        kept: flat.kept as u64,
        dropped: (flat.found - flat.kept) as u64,
    })
}

// A root that is no Add has no chain, and is answered itself, 1 kept, 0 dropped.
fn prune_additive_chain(store: &mut Store, root: u64, threshold: u64) -> Result<Pruned, Refusal>
    requires { root < store.old.count }
    ensures same { SameLists store.old store.new }
    ensures prunes { PrunesRoot (held store.old) root threshold result (held store.new) }
{
    if store.kind(root) == ADD {
        return prune_chain(store, root, threshold);
    }
    Ok(Pruned {
        id: root,
        kept: 1,
        dropped: 0,
    })
}

// What comes before the chain: the root is looked up first, then the threshold's refusal counts. Without a threshold the root is answered
// itself.
fn prune_call(
    store: &mut Store,
    root: u32,
    threshold: Result<Option<u64>, Refusal>,
) -> Result<Pruned, Refusal>
    ensures same { SameLists store.old store.new }
    ensures prunes { PrunesCall (held store.old) root threshold result (held store.new) }
{
    let id = u64::from(root);
    if store.count <= id {
        return Err(Refusal::BadOperand);
    }
    match threshold? {
        Some(bits) => prune_additive_chain(store, id, bits),
        None => Ok(Pruned {
            id,
            kept: 1,
            dropped: 0,
        }),
    }
}

// A prune on lent lists that are known to be sound.
fn prune_lists(
    nodes: &mut [u64],
    slots: &mut [u32],
    arena: DagArena,
    root: u32,
    threshold: Result<Option<u64>, Refusal>,
) -> PruneOutcome
    requires { Sound nodes.old slots.old arena }
    ensures { PrunesCall (memory nodes.old slots.old arena) root threshold result.answer
        (memory nodes.new slots.new result.arena) }
{
    let mut store = Store::over(nodes, slots, arena);
    let answer = prune_call(&mut store, root, threshold);
    PruneOutcome {
        answer,
        arena: store.arena(),
    }
}

/// A prune of an id at a threshold, on a store that is known to be sound.
pub fn prune_sound(
    nodes: &mut [u64],
    slots: &mut [u32],
    arena: DagArena,
    root: u32,
    threshold: u64,
) -> PruneOutcome
    requires { Sound nodes.old slots.old arena }
    ensures { Leaves (M.prune root threshold) (memory nodes.old slots.old arena) (meaning result.answer)
        (memory nodes.new slots.new result.arena) }
{
    prune_lists(nodes, slots, arena, root, threshold::given(threshold))
}

/// A prune of an id by a setting, on a store that is known to be sound.
pub fn prune_by_setting_sound(
    nodes: &mut [u64],
    slots: &mut [u32],
    arena: DagArena,
    root: u32,
    setting: u32,
) -> PruneOutcome
    requires { Sound nodes.old slots.old arena }
    ensures { Leaves (M.prune_by_setting root setting) (memory nodes.old slots.old arena) (meaning result.answer)
        (memory nodes.new slots.new result.arena) }
{
    prune_lists(nodes, slots, arena, root, settings::threshold(setting))
}

// A prune on any store, which is audited first: `NotSound`, then the call on a sound store.
fn prune_audited(
    nodes: &mut [u64],
    slots: &mut [u32],
    arena: DagArena,
    root: u32,
    threshold: Result<Option<u64>, Refusal>,
) -> PruneOutcome
    ensures { PrunesAudited (memory nodes.old slots.old arena) root threshold result.answer
        (memory nodes.new slots.new result.arena) }
{
    if !store::audit(nodes, slots, arena) {
        return PruneOutcome {
            answer: Err(Refusal::NotSound),
            arena,
        };
    }
    prune_lists(nodes, slots, arena, root, threshold)
}

/// A prune of an id at a threshold, both of any value, on any store.
pub fn prune(
    nodes: &mut [u64],
    slots: &mut [u32],
    arena: DagArena,
    root: u32,
    threshold: u64,
) -> PruneOutcome
    ensures { Leaves (M.prune root threshold) (memory nodes.old slots.old arena) (meaning result.answer)
        (memory nodes.new slots.new result.arena) }
{
    prune_audited(nodes, slots, arena, root, threshold::given(threshold))
}

/// A prune of an id by a setting, both of any value, on any store: the prune at the setting's threshold.
pub fn prune_by_setting(
    nodes: &mut [u64],
    slots: &mut [u32],
    arena: DagArena,
    root: u32,
    setting: u32,
) -> PruneOutcome
    ensures { Leaves (M.prune_by_setting root setting) (memory nodes.old slots.old arena) (meaning result.answer)
        (memory nodes.new slots.new result.arena) }
{
    prune_audited(nodes, slots, arena, root, settings::threshold(setting))
}
