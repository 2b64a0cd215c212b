// A node's text in a lent buffer.
ghost use Rattle.std.specs.Prelude.{[], ◌∷◌};
ghost use Rattle.writer.specs.Writing.{Writes};
ghost use Rattle.outputs.specs.Calls.{arena_of, OutputsStay};
ghost use Rattle.curvalique.specs.Writing.{length_unless_refused};
ghost use Rattle.text.specs.Memory.{controller_memory};

use arena::DagArena;
use outputs::leaving::ANSWERED;

// The text of a node, and its length.
pub fn curvalique_write_text(
    nodes: &[u64],
    slots: &[u32],
    count: u64,
    size: usize,
    entries: &[u8],
    name_count: usize,
    id: u32,
    text: &mut [u8],
    length: &mut u64,
) -> u64
    ensures writes { Writes (controller_memory nodes.now slots.now (arena_of count size) entries.now
        name_count)
        id text.old (length_unless_refused result length.new) text.new }
    ensures outputs_stay { OutputsStay result (length.old ∷ []) (length.new ∷ []) }
{
    let answer = writer::write(
        nodes,
        slots,
        DagArena { count, size },
        entries,
        name_count,
        id,
        text,
    );
    match answer {
        Ok(bytes) => {
            *length = bytes as u64;
            ANSWERED
        }
        Err(reason) => reason.number(),
    }
}
