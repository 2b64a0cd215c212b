// The answers of a store's calls.
ghost use Rattle.std.specs.Prelude.{◌≡◌};
ghost use Rattle.store.specs.Memory as Store;
ghost use Rattle.runs.specs.Answers as Walk;
ghost use Rattle.pruner.specs.Answers as Pruner;
ghost use Rattle.store_calls.specs.Calls.{answer_of};

use arena::DagArena;
use pruner::{PruneOutcome, Pruned};
use store::{Built, NodeAnswer};
use walk::{Simplified, WalkOutcome};

/// What a call of a store answers.
#[derive(Clone, Copy, Debug, PartialEq, Eq)]
pub enum Answer {
    /// The id of a node.
    Stored(u64),
    Simplified(Simplified),
    Pruned(Pruned),
    /// The number of a refusal.
    Refused(u64),
}

/// An answer, and the store's count and size after it.
#[derive(Clone, Copy)]
pub struct Performed {
    pub answer: Answer,
    pub arena: DagArena,
}

/// The answer of a call that makes a node.
pub fn of_built(built: Built) -> Performed
    ensures { (answer_of result.answer ≡ Store.answer_of built.answer) × (result.arena ≡ built.arena) }
{
    let answer = match built.answer {
        NodeAnswer::Id(id) => Answer::Stored(id),
        NodeAnswer::Refused(number) => Answer::Refused(number),
    };
    Performed {
        answer,
        arena: built.arena,
    }
}

/// The answer of a walk.
pub fn of_walk(outcome: WalkOutcome) -> Performed
    ensures { (answer_of result.answer ≡ Walk.meaning outcome.answer) × (result.arena ≡ outcome.arena) }
{
    let answer = match outcome.answer {
        Ok(simplified) => Answer::Simplified(simplified),
        Err(refusal) => Answer::Refused(refusal.number()),
    };
    Performed {
        answer,
        arena: outcome.arena,
    }
}

/// The answer of a prune.
pub fn of_prune(outcome: PruneOutcome) -> Performed
    ensures { (answer_of result.answer ≡ Pruner.meaning outcome.answer) × (result.arena ≡ outcome.arena) }
{
    let answer = match outcome.answer {
        Ok(pruned) => Answer::Pruned(pruned),
        Err(refusal) => Answer::Refused(refusal.number()),
    };
    Performed {
        answer,
        arena: outcome.arena,
    }
}
