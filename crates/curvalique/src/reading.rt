// A node read back.
ghost use Rattle.std.specs.Prelude.{◌≡◌};
ghost use Rattle.arena.specs.Node.{words_of};
ghost use Rattle.outputs.specs.Calls.{arena_of};
ghost use Rattle.curvalique.specs.Reading.{ReadsWords};

use arena::{DagArena, DagNode, NODE_WORDS};
use outputs::leaving::ANSWERED;

// A node as its words.
fn words_of(node: DagNode) -> [u64; NODE_WORDS]
    ensures { result ≡ words_of node }
{
    let mut words = [0; NODE_WORDS];
    arena::store_node(&mut words, 0, node);
    words
}

// The node of an id, as its words.
pub fn curvalique_node(
    nodes: &[u64],
    slots: &[u32],
    count: u64,
    size: usize,
    id: u32,
    words: &mut [u64; NODE_WORDS],
) -> u64
    ensures { ReadsWords nodes.now slots.now (arena_of count size) id result words.old words.new }
{
    match builder::node(nodes, slots, DagArena { count, size }, id) {
        Ok(node) => {
            *words = words_of(node);
            ANSWERED
        }
        Err(refusal) => refusal.number(),
    }
}
