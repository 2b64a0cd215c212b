// Formulas typed as text: a text is checked and compiled to a program, and one loop runs the program over the name list and the store.
#![tactic(auto)]

mod making;

ghost use Rattle.std.specs.Prelude.{◌≡◌};
ghost use Rattle.refusal.specs.Number.{number_of};
ghost use Rattle.text.specs.Making.{refused_reading};
ghost use Rattle.text.specs.Memory.{controller_memory};
ghost use Rattle.text.specs.Reading.{ReadsText};

use arena::DagArena;
pub use making::ReadOutcome;
use making::run_program;
use refusal::Refusal;
use store::NodeAnswer;
use text_language::MOST_BYTES;
use text_program::{any_nan, compile};

// A refusal before any name or node is made.
fn refused(reason: Refusal, arena: DagArena, names: usize) -> ReadOutcome
    ensures { result ≡ refused_reading (number_of reason) arena names }
{
    ReadOutcome {
        answer: NodeAnswer::Refused(reason.number()),
        arena,
        names,
    }
}

/// The node of a text. It is refused, in this order, where the store or the name list is not sound, where the text is empty or
/// too long, outside the language, nested too deep or has a NaN, and where a name, a node or a slot finds no place: only then
/// have names and nodes been made.
pub fn read(
    text: &[u8],
    nodes: &mut [u64],
    slots: &mut [u32],
    arena: DagArena,
    entries: &mut [u8],
    names: usize,
) -> ReadOutcome
    ensures { ReadsText text.now
        (controller_memory nodes.old slots.old arena entries.old names) result.answer
        (controller_memory nodes.new slots.new result.arena entries.new result.names) }
{
    if !store::audit(nodes, slots, arena) {
        return refused(Refusal::NotSound, arena, names);
    }
    if !names::is_sound(entries, names) {
        return refused(Refusal::NotSound, arena, names);
    }
    let mut program = [0u16; MOST_BYTES];
    match compile(text, &mut program) {
        Ok(size) => {
            let words = &program[..size];
            if any_nan(text, words) {
                return refused(Refusal::NotANumber, arena, names);
            }
            run_program(text, words, nodes, slots, arena, entries, names)
        }
        Err(reason) => refused(reason, arena, names),
    }
}
