// Simplify, strictly too, and the two prunes.
ghost use Rattle.std.specs.Prelude.{[], ◌∷◌};
ghost use Rattle.definitions.specs.Machine as M;
ghost use Rattle.definitions.specs.Walk.{standard, strict};
ghost use Rattle.store.specs.Memory.{Leaves};
ghost use Rattle.outputs.specs.Calls.{lent_memory, unless_refused, is_spent, OutputsStay, SpentOrNot};

use crate::performing::{prune, simplify};
use definitions::mode::Mode;
use store_calls::Call;

// A walk of a root, with a depth limit and a budget of steps.
pub fn curvalique_simplify(
    nodes: &mut [u64],
    slots: &mut [u32],
    count: &mut u64,
    size: &mut usize,
    root: u32,
    depth: u32,
    budget: u64,
    id: &mut u64,
    spent: &mut u64,
    steps: &mut u64,
) -> u64
    ensures leaves { Leaves (M.simplify standard root depth budget)
        (lent_memory nodes.old slots.old count.old size.old)
        (unless_refused result (M.simplified id.new (is_spent spent.new) steps.new))
        (lent_memory nodes.new slots.new count.new size.new) }
    ensures outputs_stay { OutputsStay result (id.old ∷ spent.old ∷ steps.old ∷ [])
        (id.new ∷ spent.new ∷ steps.new ∷ []) }
    ensures spent_or_not { SpentOrNot result spent.new }
{
    let call = Call::Simplify {
        mode: Mode::Standard,
        root,
        depth,
        budget,
    };
    simplify(nodes, slots, count, size, call, id, spent, steps)
}

// A strict walk of a root (02 i), with a depth limit and a budget of steps.
pub fn curvalique_simplify_strictly(
    nodes: &mut [u64],
    slots: &mut [u32],
    count: &mut u64,
    size: &mut usize,
    root: u32,
    depth: u32,
    budget: u64,
    id: &mut u64,
    spent: &mut u64,
    steps: &mut u64,
) -> u64
    ensures leaves { Leaves (M.simplify strict root depth budget)
        (lent_memory nodes.old slots.old count.old size.old)
        (unless_refused result (M.simplified id.new (is_spent spent.new) steps.new))
        (lent_memory nodes.new slots.new count.new size.new) }
    ensures outputs_stay { OutputsStay result (id.old ∷ spent.old ∷ steps.old ∷ [])
        (id.new ∷ spent.new ∷ steps.new ∷ []) }
    ensures spent_or_not { SpentOrNot result spent.new }
{
    let call = Call::Simplify {
        mode: Mode::Strict,
        root,
        depth,
        budget,
    };
    simplify(nodes, slots, count, size, call, id, spent, steps)
}

// A prune of a root at a threshold, by its binary64 bits.
pub fn curvalique_prune(
    nodes: &mut [u64],
    slots: &mut [u32],
    count: &mut u64,
    size: &mut usize,
    root: u32,
    threshold: u64,
    id: &mut u64,
    kept: &mut u64,
    dropped: &mut u64,
) -> u64
    ensures leaves { Leaves (M.prune root threshold) (lent_memory nodes.old slots.old count.old
        size.old) (unless_refused result (M.pruned id.new kept.new dropped.new))
        (lent_memory nodes.new slots.new count.new size.new) }
    ensures outputs_stay { OutputsStay result (id.old ∷ kept.old ∷ dropped.old ∷ [])
        (id.new ∷ kept.new ∷ dropped.new ∷ []) }
{
    let call = Call::Prune { root, threshold };
    prune(nodes, slots, count, size, call, id, kept, dropped)
}

// A prune of a root by a setting.
pub fn curvalique_prune_by_setting(
    nodes: &mut [u64],
    slots: &mut [u32],
    count: &mut u64,
    size: &mut usize,
    root: u32,
    setting: u32,
    id: &mut u64,
    kept: &mut u64,
    dropped: &mut u64,
) -> u64
    ensures leaves { Leaves (M.prune_by_setting root setting) (lent_memory nodes.old slots.old count.old
        size.old) (unless_refused result (M.pruned id.new kept.new dropped.new))
        (lent_memory nodes.new slots.new count.new size.new) }
    ensures outputs_stay { OutputsStay result (id.old ∷ kept.old ∷ dropped.old ∷ [])
        (id.new ∷ kept.new ∷ dropped.new ∷ []) }
{
    let call = Call::PruneBySetting { root, setting };
    prune(nodes, slots, count, size, call, id, kept, dropped)
}
