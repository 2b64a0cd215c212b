// A node read back.
ghost use Rattle.outputs.specs.Calls.{arena_of};
ghost use Rattle.curvalique.specs.Reading.{ReadsWords};

use arena::NODE_WORDS;

// The node of an id, as its words.
#[unsafe(no_mangle)]
pub extern "C" fn curvalique_node(
    nodes: &[u64],
    slots: &[u32],
    count: u64,
    size: usize,
    id: u32,
    words: &mut [u64; NODE_WORDS],
) -> u64
    ensures { ReadsWords nodes.now slots.now (arena_of count size) id result words.old words.new }
{
    curvalique::reading::curvalique_node(nodes, slots, count, size, id, words)
}
