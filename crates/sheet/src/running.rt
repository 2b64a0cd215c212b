// The records of a sheet, one after another.
ghost use Rattle.std.specs.Prelude.{◌≡◌, [], ◌≤◌, ◌<◌, length, drop};
ghost use Rattle.definitions.specs.Limits.{most_records};
ghost use Rattle.definitions.specs.Sheet as Sheet;
ghost use Rattle.store.specs.Sound.{Sound};
ghost use Rattle.store.specs.Memory.{memory, model};
ghost use Rattle.store_calls.specs.Calls.{answer_of};
ghost use Rattle.sheet.specs.Running.{NextRecord, RunsRecords, finished_as, noted_as};

use crate::performing::perform;
use crate::{MOST_RECORDS, Ran};
use arena::DagArena;
use listing_lines::SheetOutcome;
use records::Cursor;
use refusal::Refusal;
use store_calls::Answer;

// What a record answered: an id, and whether its budget ran out.
#[derive(Clone, Copy)]
pub(crate) struct RecordAnswer {
    pub id: u64,
    pub spent: bool,
}

// How far a sheet is done: the number of records, where the next one starts, the last answer if there is one, and the counts of the
// store.
#[derive(Clone, Copy)]
pub(crate) struct SheetProgress {
    pub done: usize,
    pub at: usize,
    pub last: Option<RecordAnswer>,
    pub arena: DagArena,
}

// What is noted of a call's answer, or the number of its refusal.
fn note(answer: Answer) -> Result<RecordAnswer, u64>
    ensures { result ≡ noted_as (answer_of answer) }
{
    match answer {
        Answer::Stored(id) => Ok(RecordAnswer { id, spent: false }),
        Answer::Simplified(walked) => Ok(RecordAnswer {
            id: walked.id,
            spent: walked.spent,
        }),
        Answer::Pruned(pruned) => Ok(RecordAnswer {
            id: pruned.id,
            spent: false,
        }),
        Answer::Refused(number) => Err(number),
    }
}

// One more record done, or the number of the refusal that cuts the sheet short: too many records, then a bad record, then the refusals of
// its call.
fn step(
    sheet: &[u8],
    nodes: &mut [u64],
    slots: &mut [u32],
    ids: &mut [u64; MOST_RECORDS],
    progress: &mut SheetProgress,
) -> Result<(), u64>
    requires { (progress.old.at < length sheet.now) × (length ids.old ≡ most_records) × (progress.old.done ≤ most_records) × Sound nodes.old
        slots.old progress.old.arena }
    ensures { NextRecord sheet.now progress.old nodes.old slots.old ids.old result
        progress.new nodes.new slots.new ids.new }
{
    let done = progress.done;
    if done == MOST_RECORDS {
        return Err(Refusal::TooManyRecords.number());
    }
    let record = match records::read(sheet, Cursor { at: progress.at }) {
        Ok(record) => record,
        Err(refusal) => return Err(refusal.number()),
    };
    let performed = perform(sheet, record.body, ids, done, nodes, slots, progress.arena);
    progress.arena = performed.arena;
    let answer = note(performed.answer)?;
    ids[done] = answer.id;
    progress.done = done + 1;
    progress.at = record.next.at;
    progress.last = Some(answer);
    Ok(())
}

// What a sheet without a refusal says.
fn finished(last: Option<RecordAnswer>) -> SheetOutcome
    ensures { result ≡ finished_as last }
{
    match last {
        None => SheetOutcome::Empty,
        Some(answer) if answer.spent => SheetOutcome::Spent(answer.id),
        Some(answer) => SheetOutcome::Ok(answer.id),
    }
}

// All records from a place on, in a sound store. The loop goes by the place of the next record: no counter that a `for` would take.
pub(crate) fn run_records(
    sheet: &[u8],
    start: usize,
    nodes: &mut [u64],
    slots: &mut [u32],
    arena: DagArena,
) -> Ran
    requires { Sound nodes.old slots.old arena }
    ensures { RunsRecords (Sheet.records most_records (model.lent (memory nodes.old slots.old arena)) []
        (model.view (memory nodes.old slots.old arena)) (drop start sheet.now))
        (memory nodes.old slots.old arena) result.outcome
        (memory nodes.new slots.new result.arena) }
{
    let mut ids = [0; MOST_RECORDS];
    let mut progress = SheetProgress {
        done: 0,
        at: start,
        last: None,
        arena,
    };
    while progress.at < sheet.len() {
        match step(sheet, nodes, slots, &mut ids, &mut progress) {
            Ok(()) => {}
            Err(number) => {
                return Ran {
                    outcome: SheetOutcome::Refused {
                        number,
                        at: progress.done as u64,
                    },
                    arena: progress.arena,
                };
            }
        }
    }
    Ran {
        outcome: finished(progress.last),
        arena: progress.arena,
    }
}
