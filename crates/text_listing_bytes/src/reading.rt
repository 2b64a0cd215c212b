// A text read into fresh lists.
ghost use Rattle.std.specs.Prelude.{◌≡◌, ◌≤◌, length};
ghost use Rattle.definitions.specs.Limits.{first_table_size};
ghost use Rattle.text.specs.Memory.{controller_memory};
ghost use Rattle.text_listing_bytes.specs.Listed.{lent_lists, ReadsFresh, PlaceOf, outcome_of};

use arena::DagArena;
use listing_lines::SheetOutcome;
use store::NodeAnswer;
use text::ReadOutcome;
use text_language::OUTSIDE_LANGUAGE;
use text_place::stops_at;

// A text, read into a fresh store in the lent words and slots and an empty name list in the lent entries.
pub(crate) fn read_fresh(
    text: &[u8],
    nodes: &mut [u64],
    slots: &mut [u32],
    entries: &mut [u8],
) -> ReadOutcome
    requires { first_table_size ≤ length slots.old }
    ensures { ReadsFresh text.now (lent_lists nodes.old slots.old entries.old) result.answer
        (controller_memory nodes.new slots.new result.arena entries.new result.names) }
{
    match builder::fresh(nodes, slots) {
        Ok(arena) => text::read(text, nodes, slots, arena, entries, 0),
        Err(refusal) => ReadOutcome {
            answer: NodeAnswer::Refused(refusal.number()),
            arena: DagArena { count: 0, size: 0 },
            names: 0,
        },
    }
}

// The place where a text leaves the language, and 0 for any other answer.
pub(crate) fn place_of(text: &[u8], answer: NodeAnswer) -> usize
    ensures { PlaceOf text.now answer result }
{
    match answer {
        NodeAnswer::Id(_) => 0,
        NodeAnswer::Refused(number) => {
            if number == OUTSIDE_LANGUAGE {
                return stops_at(text);
            }
            0
        }
    }
}

// What the listing's first line says.
pub(crate) fn outcome_of(answer: NodeAnswer, place: usize) -> SheetOutcome
    ensures { result ≡ outcome_of answer place }
{
    match answer {
        NodeAnswer::Id(id) => SheetOutcome::Ok(id),
        NodeAnswer::Refused(number) => SheetOutcome::Refused {
            number,
            at: place as u64,
        },
    }
}
