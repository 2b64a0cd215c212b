// The listing of a sheet's result, a line at a time.
#![tactic(auto)]

mod all;
mod digits;
mod line;
mod node;

ghost use Rattle.std.specs.Prelude.{[], ◌∷◌, ◌++◌};
ghost use Rattle.definitions.specs.Listing.{line_feed};
ghost use Rattle.store.specs.Memory.{memory};
ghost use Rattle.listing_lines.specs.Line.{Holds};
ghost use Rattle.listing_lines.specs.Outcome.{first_line_of};
ghost use Rattle.listing_lines.specs.Answers.{Lists};

pub use all::{all_lines, put_line};
use arena::DagArena;
pub use digits::{BEFORE_LETTERS, DECIMAL_BASE, HEX_BASE, HEX_DIGITS, ZERO, hex_line, with_number};
pub use line::{LINE_BYTES, Line, new, with_bytes};
use node::node_line_sound;
use refusal::Refusal;

/// What a sheet's first line says: the last answer's id, no records, the id of a last record that ran out, or a refusal and its record.
/// A refusal is a number here, since a listing that is read back may have any.
#[derive(Clone, Copy, Debug, PartialEq, Eq)]
pub enum SheetOutcome {
    Ok(u64),
    Empty,
    Spent(u64),
    Refused { number: u64, at: u64 },
}

/// `ok` and the last answer's id (`-` without records), or `spent` and the id if the last record ran out, or `refused`, its number, `at` and
/// the record.
pub fn first_line(outcome: SheetOutcome) -> Line
    ensures { Holds (first_line_of outcome ++ (line_feed ∷ [])) result }
{
    match outcome {
        SheetOutcome::Ok(id) => with_bytes(with_number(with_bytes(new(), b"ok"), id), b"\n"),
        SheetOutcome::Empty => with_bytes(new(), b"ok -\n"),
        SheetOutcome::Spent(id) => with_bytes(with_number(with_bytes(new(), b"spent"), id), b"\n"),
        SheetOutcome::Refused { number, at } => {
            let refused = with_number(with_bytes(new(), b"refused"), number);
            with_bytes(with_number(with_bytes(refused, b" at"), at), b"\n")
        }
    }
}

/// The line of an id of any store, which is audited.
pub fn node_line(nodes: &[u64], slots: &[u32], arena: DagArena, id: u32) -> Result<Line, Refusal>
    ensures { Lists (memory nodes.now slots.now arena) id result }
{
    if !store::audit(nodes, slots, arena) {
        return Err(Refusal::NotSound);
    }
    let place = u64::from(id);
    if arena.count <= place {
        return Err(Refusal::BadOperand);
    }
    Ok(node_line_sound(nodes, arena.count, place))
}
