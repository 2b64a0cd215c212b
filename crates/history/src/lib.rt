// A list of calls, run on one store and one name list: with the promise of specs/Replaying.antt as the contract. Calls are words, as
// specs/Encoding.antt of encoding says.
#![tactic(auto)]

ghost use Rattle.text.specs.Memory.{controller_memory};
ghost use Rattle.history.specs.Replaying.{after, RunsAll, Replays};

use arena::DagArena;
use builder::fresh;
use calls::{CallResult, at_first, call};
use encoding::finding::next_call;
use refusal::Refusal;

/// What running a list of calls leaves, beside the store and the names.
#[derive(Clone, Copy)]
pub struct Run {
    /// The reply of the last call, and the store's count and size and the number of names after it.
    pub last: CallResult,
    /// How many calls were run.
    pub calls: usize,
    /// How many words those calls take. The words past them begin with no whole call with a known code, and nothing of them was run.
    pub words: usize,
}

// Every call of the list, each on the store and the names as the call before left them. No name is known at first.
fn replay_from(
    nodes: &mut [u64],
    slots: &mut [u32],
    entries: &mut [u8],
    arena: DagArena,
    calls: &[u32],
) -> Run
    ensures { RunsAll (controller_memory nodes.old slots.old arena entries.old 0)
        calls.now result (after nodes.new slots.new entries.new result.last) }
{
    let mut last = at_first(arena);
    let mut run: usize = 0;
    let mut rest = calls;
    while let Some(next) = next_call(rest) {
        let known = last.names;
        last = call(
            nodes,
            slots,
            entries,
            last.arena,
            known,
            next.header,
            next.operands,
        );
        run += 1;
        rest = next.rest;
    }
    Run {
        last,
        calls: run,
        words: calls.len() - rest.len(),
    }
}

/// A fresh store and an empty name list, then every call of the list. Where the store is refused no call is run.
pub fn replay(
    nodes: &mut [u64],
    slots: &mut [u32],
    entries: &mut [u8],
    calls: &[u32],
) -> Result<Run, Refusal>
    ensures { Replays nodes.old slots.old entries.old calls.now result
        nodes.new slots.new entries.new }
{
    match fresh(nodes, slots) {
        Err(_) => Err(Refusal::NoSlotPlace),
        Ok(arena) => Ok(replay_from(nodes, slots, entries, arena, calls)),
    }
}
