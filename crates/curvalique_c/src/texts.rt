// A formula typed as text, read into a store and a name list.
ghost use Rattle.std.specs.Prelude.{[], ◌∷◌};
ghost use Rattle.text.specs.Memory.{controller_memory};
ghost use Rattle.text.specs.Reading.{ReadsText};
ghost use Rattle.outputs.specs.Calls.{arena_of, OutputsStay};
ghost use Rattle.curvalique.specs.TextCalls.{id_unless_refused};

// The node of a text, with the names and nodes that it needs.
#[unsafe(no_mangle)]
pub extern "C" fn curvalique_read_text(
    text: &[u8],
    nodes: &mut [u64],
    slots: &mut [u32],
    count: &mut u64,
    size: &mut usize,
    entries: &mut [u8],
    name_count: &mut usize,
    id: &mut u64,
) -> u64
    ensures reads_text { ReadsText text.now
        (controller_memory nodes.old slots.old (arena_of count.old size.old)
        entries.old name_count.old) (id_unless_refused result id.new)
        (controller_memory nodes.new slots.new (arena_of count.new size.new) entries.new
        name_count.new) }
    ensures outputs_stay { OutputsStay result (id.old ∷ []) (id.new ∷ []) }
{
    curvalique::texts::curvalique_read_text(
        text, nodes, slots, count, size, entries, name_count, id,
    )
}
