// The first line of a listing.
ghost use Rattle.listing_reader.specs.First.{ReadsFirst, ReadsRefused};

use crate::word::{line_behind, number_behind, word_at};
use listing_lines::SheetOutcome;

// The bytes of the first line of a sheet without records.
const EMPTY_BYTES: usize = 5;

// A first line's outcome, and the place after the line.
#[derive(Clone, Copy)]
pub(crate) struct FirstLine {
    pub outcome: SheetOutcome,
    pub next: usize,
}

// `refused`, a number, `at` and a record.
fn refused(bytes: &[u8]) -> Option<FirstLine>
    ensures { ReadsRefused bytes.now result }
{
    let number = number_behind(bytes, 0, b"refused")?;
    let record = line_behind(bytes, number.next, b" at")?;
    Some(FirstLine {
        outcome: SheetOutcome::Refused {
            number: number.value,
            at: record.value,
        },
        next: record.next,
    })
}

// `ok` and the last answer's id (`-` without records), or `spent` and the id if the last record ran out, or `refused`, a number, `at` and a
// record.
pub(crate) fn first_line(bytes: &[u8]) -> Option<FirstLine>
    ensures { ReadsFirst bytes.now result }
{
    if word_at(bytes, 0, b"ok -\n") {
        return Some(FirstLine {
            outcome: SheetOutcome::Empty,
            next: EMPTY_BYTES,
        });
    }
    if let Some(ok) = line_behind(bytes, 0, b"ok") {
        return Some(FirstLine {
            outcome: SheetOutcome::Ok(ok.value),
            next: ok.next,
        });
    }
    if let Some(spent) = line_behind(bytes, 0, b"spent") {
        return Some(FirstLine {
            outcome: SheetOutcome::Spent(spent.value),
            next: spent.next,
        });
    }
    refused(bytes)
}
