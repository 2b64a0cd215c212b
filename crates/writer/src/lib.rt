// A node's text in a lent buffer: without blanks, and with the fewest brackets.
#![tactic(auto)]

mod numerals;
mod operators;
mod placing;
mod sweeping;

ghost use Rattle.std.specs.Prelude.{◌<◌};
ghost use Rattle.writer.specs.Placing.{Known, spelled_at};
ghost use Rattle.writer.specs.Answers.{answer_of};
ghost use Rattle.writer.specs.Sweeping.{WritesExpression};
ghost use Rattle.writer.specs.Writing.{Writes};
ghost use Rattle.text.specs.Memory.{controller_memory};

use arena::DagArena;
use operators::SUM;
pub use placing::Formulas;
use placing::{SPACE, SPARE, put};
use refusal::Refusal;
use sweeping::has_text;
use text_language::MOST_NESTED;

/// A node's text at the start of a lent buffer, and its length, on a sound store and a sound name list.
///
/// # Errors
///
/// `NoText` or `TextTooLong`. The buffer stays as it was then.
pub fn write_sound(formulas: Formulas, id: u64, buffer: &mut [u8]) -> Result<usize, Refusal>
    requires { Known formulas × (id < formulas.count) }
    ensures { WritesExpression (spelled_at formulas.entry id) buffer.old
        (answer_of result) buffer.new }
{
    if !has_text(formulas, id) {
        return Err(Refusal::NoText);
    }
    let mut out = [0u8; SPACE];
    let place = put(&formulas, id, SUM, MOST_NESTED as u64, &mut out, SPACE);
    if place < SPARE {
        return Err(Refusal::TextTooLong);
    }
    let size = SPACE - place;
    if buffer.len() < size {
        return Err(Refusal::TextTooLong);
    }
    buffer[..size].copy_from_slice(&out[place..]);
    Ok(size)
}

/// A node's text at the start of a lent buffer, and its length, on any store and any name list. A refusal leaves the buffer as it was.
pub fn write(
    nodes: &[u64],
    slots: &[u32],
    arena: DagArena,
    entries: &[u8],
    named: usize,
    id: u32,
    buffer: &mut [u8],
) -> Result<usize, Refusal>
    ensures { Writes (controller_memory nodes.now slots.now arena entries.now named) id
        buffer.old (answer_of result) buffer.new }
{
    if !store::audit(nodes, slots, arena) {
        return Err(Refusal::NotSound);
    }
    if !names::is_sound(entries, named) {
        return Err(Refusal::NotSound);
    }
    let node = u64::from(id);
    if arena.count <= node {
        return Err(Refusal::BadOperand);
    }
    let formulas = Formulas {
        nodes,
        count: arena.count,
        entries,
        named,
    };
    write_sound(formulas, node, buffer)
}
