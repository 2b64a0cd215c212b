// A sheet on a store.
ghost use Rattle.std.specs.Prelude.{◌≡◌, [], ◌∷◌};
ghost use Rattle.sheet.specs.Sheets.{Runs, RunsFresh};
ghost use Rattle.outputs.specs.Calls.{arena_of, lent_memory};
ghost use Rattle.outputs.specs.SheetCalls.{sheet_outcome, sheet_outputs};
ghost use Rattle.curvalique.specs.SheetRuns.{sheet_ran};

use arena::DagArena;
use outputs::leaving::leave_arena;
use outputs::sheets::leave_outcome;

// A sheet on any store.
pub fn curvalique_run_sheet(
    sheet: &[u8],
    nodes: &mut [u64],
    slots: &mut [u32],
    count: &mut u64,
    size: &mut usize,
    form: &mut u64,
    id: &mut u64,
    record: &mut u64,
) -> u64
    ensures runs { Runs sheet.now (lent_memory nodes.old slots.old count.old
        size.old) (sheet_outcome result form.new id.new «record».new)
        (lent_memory nodes.new slots.new count.new size.new) }
    ensures record_after { result ∷ form.new ∷ id.new ∷ «record».new ∷ [] ≡ sheet_outputs
        (sheet_outcome result form.new id.new «record».new) form.old id.old
        «record».old }
{
    let arena = DagArena {
        count: *count,
        size: *size,
    };
    let ran = sheet::run(sheet, nodes, slots, arena);
    let after = ran.arena;
    leave_arena(after, count, size);
    let outcome = ran.outcome;
    leave_outcome(outcome, form, id, record)
}

// A sheet on a fresh store in the lent words and slots. The counts stay where none is opened.
pub fn curvalique_run_sheet_fresh(
    sheet: &[u8],
    nodes: &mut [u64],
    slots: &mut [u32],
    count: &mut u64,
    size: &mut usize,
    form: &mut u64,
    id: &mut u64,
    record: &mut u64,
) -> u64
    ensures runs_fresh { RunsFresh sheet.now nodes.old slots.old
        (arena_of count.old size.old) (sheet_ran
        (sheet_outcome result form.new id.new «record».new) count.new size.new)
        nodes.new slots.new }
    ensures record_after { result ∷ form.new ∷ id.new ∷ «record».new ∷ [] ≡ sheet_outputs
        (sheet_outcome result form.new id.new «record».new) form.old id.old
        «record».old }
{
    let before = DagArena {
        count: *count,
        size: *size,
    };
    let ran = sheet::run_fresh(sheet, nodes, slots, before);
    let after = ran.arena;
    leave_arena(after, count, size);
    let outcome = ran.outcome;
    leave_outcome(outcome, form, id, record)
}
