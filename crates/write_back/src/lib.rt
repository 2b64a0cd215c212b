// What the program `formula` does with a text: it is read into a fresh store, simplified, pruned by a setting if one is given, and written
// back.
#![tactic(auto)]

ghost use Rattle.std.specs.Prelude.{◌≡◌};
ghost use Rattle.store.specs.Memory.{memory};
ghost use Rattle.text.specs.Memory.{controller_memory};
ghost use Rattle.write_back.specs.Ids.{id_of};
ghost use Rattle.write_back.specs.Answers.{FormulaPruned, FinishesFormula, Simplifies, Answers};

use arena::DagArena;
use definitions::mode::Mode;
use pruner::Pruned;
use walk::Simplified;

// The greatest depth limit, and a budget; a walk that uses it up says so. A second walk would seldom go deeper: what the first finished is
// marked.
pub const DEPTH: u32 = 255;

const BUDGET: u64 = 100_000_000;

/// What is told of a text that was written: its length, the walk's steps, whether its budget was used up, whether the formula may be deeper
/// than it went, and the terms kept and dropped. The two flags hold of any text, so they are no Option.
#[derive(Clone, Copy)]
pub struct Written {
    pub length: usize,
    pub steps: u64,
    pub spent: bool,
    pub deep: bool,
    pub kept: u64,
    pub dropped: u64,
}

/// What was written or the number of a refusal, with the counts of the store and of the names after it.
#[derive(Clone, Copy)]
pub struct Answered {
    pub outcome: Result<Written, u64>,
    pub arena: DagArena,
    pub names: usize,
}

// An id as calls take it.
fn id_of(id: u64) -> u32
    ensures { result ≡ id_of id }
{
    (id % 4_294_967_296) as u32
}

// The prune, if a setting is given.
fn prune(
    nodes: &mut [u64],
    slots: &mut [u32],
    arena: DagArena,
    id: u64,
    pruning: Option<u32>,
) -> pruner::PruneOutcome
    ensures { FormulaPruned pruning (memory nodes.old slots.old arena) id result.answer
        (memory nodes.new slots.new result.arena) }
{
    match pruning {
        None => pruner::PruneOutcome {
            answer: Ok(Pruned {
                id,
                kept: 1,
                dropped: 0,
            }),
            arena,
        },
        Some(setting) => pruner::prune_by_setting(nodes, slots, arena, id_of(id), setting),
    }
}

// The prune and the write, after a walk.
fn finish(
    nodes: &mut [u64],
    slots: &mut [u32],
    arena: DagArena,
    entries: &[u8],
    names: usize,
    id: u64,
    pruning: Option<u32>,
    steps: u64,
    spent: bool,
    deep: bool,
    text: &mut [u8],
) -> Answered
    ensures { FinishesFormula pruning steps spent deep
        (controller_memory nodes.old slots.old arena entries.now names) id text.old result.outcome
        (controller_memory nodes.new slots.new result.arena entries.now result.names) text.new }
{
    let pruned = prune(nodes, slots, arena, id, pruning);
    let after = pruned.arena;
    let answer = pruned.answer;
    match answer {
        Ok(pruned) => {
            let Pruned { id, kept, dropped } = pruned;
            let written = writer::write(nodes, slots, after, entries, names, id_of(id), text);
            match written {
                Ok(length) => Answered {
                    outcome: Ok(Written {
                        length,
                        steps,
                        spent,
                        deep,
                        kept,
                        dropped,
                    }),
                    arena: after,
                    names,
                },
                Err(reason) => Answered {
                    outcome: Err(reason.number()),
                    arena: after,
                    names,
                },
            }
        }
        Err(refusal) => Answered {
            outcome: Err(refusal.number()),
            arena: after,
            names,
        },
    }
}

// The walk and what follows, after a reading.
fn simplify(
    nodes: &mut [u64],
    slots: &mut [u32],
    arena: DagArena,
    entries: &[u8],
    names: usize,
    id: u64,
    pruning: Option<u32>,
    text: &mut [u8],
) -> Answered
    ensures { Simplifies pruning
        (controller_memory nodes.old slots.old arena entries.now names) id text.old result.outcome
        (controller_memory nodes.new slots.new result.arena entries.now result.names) text.new }
{
    let root = id_of(id);
    let deep = DEPTH < root;
    let walked = walk::simplify(nodes, slots, arena, Mode::Standard, root, DEPTH, BUDGET);
    let after = walked.arena;
    let answer = walked.answer;
    match answer {
        Ok(simplified) => {
            let Simplified { id, spent, steps } = simplified;
            finish(
                nodes, slots, after, entries, names, id, pruning, steps, spent, deep, text,
            )
        }
        Err(refusal) => Answered {
            outcome: Err(refusal.number()),
            arena: after,
            names,
        },
    }
}

/// All of it, on lent lists; it is pruned by a setting if one is given.
pub fn answer(
    typed: &[u8],
    pruning: Option<u32>,
    nodes: &mut [u64],
    slots: &mut [u32],
    arena: DagArena,
    entries: &mut [u8],
    names: usize,
    text: &mut [u8],
) -> Answered
    ensures { Answers typed.now pruning
        (controller_memory nodes.old slots.old arena entries.old names) text.old result.outcome
        (controller_memory nodes.new slots.new result.arena entries.new result.names) text.new }
{
    let made = text::read(typed, nodes, slots, arena, entries, names);
    let after = made.arena;
    let known = made.names;
    let answer = made.answer;
    match answer {
        store::NodeAnswer::Id(id) => simplify(
            nodes, slots, after, entries, known, id, pruning, text,
        ),
        store::NodeAnswer::Refused(number) => Answered {
            outcome: Err(number),
            arena: after,
            names: known,
        },
    }
}
