// The walk with its budget.
ghost use Rattle.std.specs.Prelude.{IfOk};
ghost use Rattle.definitions.specs.Modes.{mode_of};
ghost use Rattle.store.specs.Held.{held, SameLists};
ghost use Rattle.rebuild.specs.Memory.{nodes_of};
ghost use Rattle.turns.specs.Stack.{Invariant};
ghost use Rattle.runs.specs.Runs.{Startable, Ends, WalksRoot};
ghost use Rattle.runs.specs.States.{stack_of};

use crate::Simplified;
use crate::state::Walk;
use refusal::Refusal;
use store::Store;
use turns::turn::turn;

// The answer once no turn is left to do: exactly if the budget is used up with frames left, it is the root, spent.
fn ending(depth: usize, value: u32, root: u64, steps: u64) -> Simplified
    ensures { Ends depth value root steps result }
{
    if depth == 0 {
        return Simplified {
            id: u64::from(value),
            spent: false,
            steps,
        };
    }
    Simplified {
        id: root,
        spent: true,
        steps,
    }
}

/// The walk of a root from its first state: turns until no frame is left, a budget of them at most. Where it answers, the state that it
/// leaves is that after the last turn, so that a walk whose budget was used up can go on by steps.
///
/// # Errors
///
/// `NoNodePlace` or `NoSlotPlace`, as a turn is refused. What was interned and marked before stays; the state left is none to go on from.
pub fn run(
    store: &mut Store,
    walk: &mut Walk,
    root: u64,
    budget: u64,
) -> Result<Simplified, Refusal>
    requires { Startable (held store.old) root walk.old }
    ensures same { SameLists store.old store.new }
    ensures walks { WalksRoot (mode_of walk.old.mode) (held store.old) root walk.old.limit budget (held store.new) result }
    ensures state { IfOk result (λ _. Invariant (nodes_of (held store.new)) walk.old.limit (stack_of walk.new)) }
{
    let mode = walk.mode;
    let limit = walk.limit;
    let mut heights = walk.heights;
    let mut steps: u64 = 0;
    while steps < budget {
        if heights.depth == 0 {
            break;
        }
        turn(store, &mut walk.arrays, &mut heights, mode, limit)?;
        steps += 1;
    }
    walk.heights = heights;
    Ok(ending(heights.depth, walk.arrays.values[0], root, steps))
}
