// Sheets: records done in order on one store.
#![tactic(auto)]

mod operands;
mod performing;
mod running;

ghost use Rattle.store.specs.Memory.{memory};
ghost use Rattle.std.specs.Prelude.{◌≡◌};
ghost use Rattle.sheet.specs.Sheets.{Runs, RunsFresh, refused_at_start};

use arena::DagArena;
use listing_lines::SheetOutcome;
use refusal::Refusal;
use running::run_records;

// The most records of a sheet.
pub(crate) const MOST_RECORDS: usize = 1_024;

/// What a sheet's first line says, and the counts of the store after it.
#[derive(Clone, Copy)]
pub struct Ran {
    pub outcome: SheetOutcome,
    pub arena: DagArena,
}

fn refused(number: u64, arena: DagArena) -> Ran
    ensures { result ≡ refused_at_start number arena }
{
    Ran {
        outcome: SheetOutcome::Refused { number, at: 0 },
        arena,
    }
}

/// A sheet on any store, which is audited once.
pub fn run(sheet: &[u8], nodes: &mut [u64], slots: &mut [u32], arena: DagArena) -> Ran
    ensures { Runs sheet.now (memory nodes.old slots.old arena) result.outcome
        (memory nodes.new slots.new result.arena) }
{
    if !store::audit(nodes, slots, arena) {
        return refused(Refusal::NotSound.number(), arena);
    }
    match records::open(sheet) {
        Err(refusal) => refused(refusal.number(), arena),
        Ok(cursor) => run_records(sheet, cursor.at, nodes, slots, arena),
    }
}

/// A sheet on a fresh store in the lent words and slots. Where none is opened, for bad input or too few slots, nothing changes, and the
/// counts are those handed in.
pub fn run_fresh(sheet: &[u8], nodes: &mut [u64], slots: &mut [u32], before: DagArena) -> Ran
    ensures { RunsFresh sheet.now nodes.old slots.old before result nodes.new
        slots.new }
{
    if let Err(refusal) = records::open(sheet) {
        return refused(refusal.number(), before);
    }
    match builder::fresh(nodes, slots) {
        Err(refusal) => refused(refusal.number(), before),
        Ok(arena) => run(sheet, nodes, slots, arena),
    }
}
