// What a call answered, left behind the caller's pointers.
ghost use Rattle.std.specs.Prelude.{◌≡◌, [], ◌∷◌, ◌≤◌};
ghost use Rattle.definitions.specs.Machine as M;
ghost use Rattle.store.specs.Memory as Store;
ghost use Rattle.store_calls.specs.Calls.{answer_of};
ghost use Rattle.outputs.specs.Calls.{arena_of, is_spent, AnswersNode, AnswersWalk, AnswersPrune, LeftBehind, SpentLeft};

use arena::DagArena;
use store::Built;
use store_calls::{Answer, Performed, of_built};

// 01's refusals are numbered from 1.
pub const ANSWERED: u64 = 0;

// Whether the budget of a walk was used up with frames left.
const NOT_SPENT: u64 = 0;

const SPENT: u64 = 1;

// The counts of a store.
pub fn leave_arena(arena: DagArena, count: &mut u64, size: &mut usize)
    ensures { arena_of count.new size.new ≡ arena }
{
    *count = arena.count;
    *size = arena.size;
}

// The answer of a call that makes a node.
pub fn leave_stored(performed: Performed, count: &mut u64, size: &mut usize, id: &mut u64) -> u64
    requires { AnswersNode (answer_of performed.answer) }
    ensures size_after { arena_of count.new size.new ≡ performed.arena }
    ensures left_behind { LeftBehind (answer_of performed.answer) result (M.stored id.new) (id.old ∷ [])
        (id.new ∷ []) }
{
    let arena = performed.arena;
    leave_arena(arena, count, size);
    let answer = performed.answer;
    match answer {
        Answer::Stored(answered) => {
            *id = answered;
            ANSWERED
        }
        Answer::Simplified(_) => ANSWERED,
        Answer::Pruned(_) => ANSWERED,
        Answer::Refused(refusal) => refusal,
    }
}

// The same of a node made without a call.
pub fn leave_built(built: Built, count: &mut u64, size: &mut usize, id: &mut u64) -> u64
    ensures size_after { arena_of count.new size.new ≡ built.arena }
    ensures left_behind { LeftBehind (Store.answer_of built.answer) result (M.stored id.new) (id.old ∷ []) (id.new ∷ []) }
{
    leave_stored(of_built(built), count, size, id)
}

// Whether a walk was spent, as a number.
fn number_of(spent: bool) -> u64
    ensures { (is_spent result ≡ spent) × (result ≤ 1) }
{
    if spent { SPENT } else { NOT_SPENT }
}

// The answer of a simplify.
pub fn leave_simplified(
    performed: Performed,
    count: &mut u64,
    size: &mut usize,
    id: &mut u64,
    spent: &mut u64,
    steps: &mut u64,
) -> u64
    requires { AnswersWalk (answer_of performed.answer) }
    ensures size_after { arena_of count.new size.new ≡ performed.arena }
    ensures left_behind { LeftBehind (answer_of performed.answer) result (M.simplified id.new (is_spent spent.new)
        steps.new) (id.old ∷ spent.old ∷ steps.old ∷ [])
        (id.new ∷ spent.new ∷ steps.new ∷ []) }
    ensures spent_left { SpentLeft (answer_of performed.answer) spent.new }
{
    let arena = performed.arena;
    leave_arena(arena, count, size);
    let answer = performed.answer;
    match answer {
        Answer::Stored(_) => ANSWERED,
        Answer::Simplified(walked) => {
            *id = walked.id;
            *spent = number_of(walked.spent);
            *steps = walked.steps;
            ANSWERED
        }
        Answer::Pruned(_) => ANSWERED,
        Answer::Refused(number) => number,
    }
}

// The answer of a prune.
pub fn leave_pruned(
    performed: Performed,
    count: &mut u64,
    size: &mut usize,
    id: &mut u64,
    kept: &mut u64,
    dropped: &mut u64,
) -> u64
    requires { AnswersPrune (answer_of performed.answer) }
    ensures size_after { arena_of count.new size.new ≡ performed.arena }
    ensures left_behind { LeftBehind (answer_of performed.answer) result (M.pruned id.new kept.new dropped.new)
        (id.old ∷ kept.old ∷ dropped.old ∷ []) (id.new ∷ kept.new ∷ dropped.new ∷ []) }
{
    let arena = performed.arena;
    leave_arena(arena, count, size);
    let answer = performed.answer;
    match answer {
        Answer::Stored(_) => ANSWERED,
        Answer::Simplified(_) => ANSWERED,
        Answer::Pruned(pruned) => {
            *id = pruned.id;
            *kept = pruned.kept;
            *dropped = pruned.dropped;
            ANSWERED
        }
        Answer::Refused(number) => number,
    }
}
