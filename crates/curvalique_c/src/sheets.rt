// A sheet on a store.
ghost use Rattle.std.specs.Prelude.{◌≡◌, [], ◌∷◌};
ghost use Rattle.sheet.specs.Sheets.{Runs, RunsFresh};
ghost use Rattle.outputs.specs.Calls.{arena_of, lent_memory};
ghost use Rattle.outputs.specs.SheetCalls.{sheet_outcome, sheet_outputs};
ghost use Rattle.curvalique.specs.SheetRuns.{sheet_ran};

// A sheet on any store.
#[unsafe(no_mangle)]
pub extern "C" fn curvalique_run_sheet(
    sheet: &[u8],
    nodes: &mut [u64],
    slots: &mut [u32],
    count: &mut u64,
    size: &mut usize,
    form: &mut u64,
    id: &mut u64,
    record: &mut u64,
) -> u64
    ensures runs { Runs sheet.now (lent_memory nodes.old slots.old count.old
        size.old) (sheet_outcome result form.new id.new «record».new)
        (lent_memory nodes.new slots.new count.new size.new) }
    ensures record_after { result ∷ form.new ∷ id.new ∷ «record».new ∷ [] ≡ sheet_outputs
        (sheet_outcome result form.new id.new «record».new) form.old id.old
        «record».old }
{
    curvalique::sheets::curvalique_run_sheet(sheet, nodes, slots, count, size, form, id, record)
}

// A sheet on a fresh store in the lent words and slots. The counts stay where none is opened.
#[unsafe(no_mangle)]
pub extern "C" fn curvalique_run_sheet_fresh(
    sheet: &[u8],
    nodes: &mut [u64],
    slots: &mut [u32],
    count: &mut u64,
    size: &mut usize,
    form: &mut u64,
    id: &mut u64,
    record: &mut u64,
) -> u64
    ensures runs_fresh { RunsFresh sheet.now nodes.old slots.old
        (arena_of count.old size.old) (sheet_ran
        (sheet_outcome result form.new id.new «record».new) count.new size.new)
        nodes.new slots.new }
    ensures record_after { result ∷ form.new ∷ id.new ∷ «record».new ∷ [] ≡ sheet_outputs
        (sheet_outcome result form.new id.new «record».new) form.old id.old
        «record».old }
{
    curvalique::sheets::curvalique_run_sheet_fresh(
        sheet, nodes, slots, count, size, form, id, record,
    )
}
