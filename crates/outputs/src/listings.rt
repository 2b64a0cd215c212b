// A listing read back.
ghost use Rattle.std.specs.Prelude.{◌≡◌, [], ◌∷◌};
ghost use Rattle.outputs.specs.ListingCalls.{first_line_outputs, read_outputs};

use crate::forms::{EMPTY, OK, REFUSED, SPENT};
use crate::leaving::ANSWERED;
use listing_lines::SheetOutcome;
use listing_reader::ListingAnswer;

// What reading a listing returns where it is not answered.
pub const WRONG_LINE: u64 = 1;

pub const TOO_FEW_WORDS: u64 = 2;

// The first line of a listing: its form, and the numbers that stand in it.
fn leave_first_line(
    outcome: SheetOutcome,
    form: &mut u64,
    id: &mut u64,
    number: &mut u64,
    record: &mut u64,
)
    ensures { form.new ∷ id.new ∷ number.new ∷ «record».new ∷ [] ≡ first_line_outputs outcome
        id.old number.old «record».old }
{
    match outcome {
        SheetOutcome::Ok(answered) => {
            *form = OK;
            *id = answered;
        }
        SheetOutcome::Empty => {
            *form = EMPTY;
        }
        SheetOutcome::Spent(root) => {
            *form = SPENT;
            *id = root;
        }
        SheetOutcome::Refused {
            number: refusal,
            at,
        } => {
            *form = REFUSED;
            *number = refusal;
            *record = at;
        }
    }
}

// What reading a listing answers: the count of nodes and the first line, or the number of a wrong line.
pub fn leave_read(
    answer: ListingAnswer,
    count: &mut u64,
    form: &mut u64,
    id: &mut u64,
    number: &mut u64,
    record: &mut u64,
    line: &mut u64,
) -> u64
    ensures { result ∷ count.new ∷ form.new ∷ id.new ∷ number.new ∷ «record».new ∷ line.new ∷ [] ≡ read_outputs answer count.old form.old id.old number.old
        «record».old line.old }
{
    match answer {
        ListingAnswer::Read {
            outcome,
            count: held,
        } => {
            *count = held;
            leave_first_line(outcome, form, id, number, record);
            ANSWERED
        }
        ListingAnswer::Refused(wrong) => {
            *line = wrong;
            WRONG_LINE
        }
        ListingAnswer::Full => TOO_FEW_WORDS,
    }
}
