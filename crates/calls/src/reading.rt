// One reading.
ghost use Rattle.text.specs.Memory.{controller_memory};
ghost use Rattle.text.specs.Reading.{ReadsText};
ghost use Rattle.encoding.specs.Encoding.{bytes_of};

use arena::DagArena;
use encoding::spelling::spell_text;
use text::ReadOutcome;

pub(crate) fn call_reading(
    nodes: &mut [u64],
    slots: &mut [u32],
    entries: &mut [u8],
    arena: DagArena,
    names: usize,
    operands: &[u32],
) -> ReadOutcome
    ensures { ReadsText (bytes_of operands.now)
        (controller_memory nodes.old slots.old arena entries.old names) result.answer
        (controller_memory nodes.new slots.new result.arena entries.new result.names) }
{
    let typed = spell_text(operands);
    text::read(
        &typed.bytes[..typed.length],
        nodes,
        slots,
        arena,
        entries,
        names,
    )
}
