// The outcome of a sheet.
ghost use Rattle.std.specs.Prelude.{◌≡◌, [], ◌∷◌};
ghost use Rattle.outputs.specs.SheetCalls.{sheet_outputs};

use crate::forms::{EMPTY, OK, SPENT};
use crate::leaving::ANSWERED;
use listing_lines::SheetOutcome;

// The outcome of a sheet: its form and id where every record was answered, else the record refused.
pub fn leave_outcome(outcome: SheetOutcome, form: &mut u64, id: &mut u64, record: &mut u64) -> u64
    ensures { result ∷ form.new ∷ id.new ∷ «record».new ∷ [] ≡ sheet_outputs outcome form.old
        id.old «record».old }
{
    match outcome {
        SheetOutcome::Ok(answered) => {
            *form = OK;
            *id = answered;
            ANSWERED
        }
        SheetOutcome::Empty => {
            *form = EMPTY;
            ANSWERED
        }
        SheetOutcome::Spent(root) => {
            *form = SPENT;
            *id = root;
            ANSWERED
        }
        SheetOutcome::Refused { number, at } => {
            *record = at;
            number
        }
    }
}
