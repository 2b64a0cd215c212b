// The patterns, by themselves.
ghost use Rattle.std.specs.Prelude.{◌≡◌, true};
ghost use Rattle.script_store.specs.Ready.{Ready};

use crate::listing::between;
use arena::DagArena;
use definitions::MOST_CHILDREN;
use definitions::mode::Mode;
use scripts::lines::MOST_VALUES;
use scripts::printing::refused;
use store::NodeAnswer;

// Whether the store is sound and two ids are below its count.
fn ready(nodes: &[u64], slots: &[u32], arena: DagArena, lhs: u64, rhs: u64) -> bool
    ensures { result ≡ true → Ready nodes.now slots.now arena lhs rhs }
{
    if !store::audit(nodes, slots, arena) {
        return false;
    }
    lhs < arena.count && rhs < arena.count
}

fn show(out: &impl Print, answer: NodeAnswer) {
    match answer {
        NodeAnswer::Id(id) => {
            let _ = print!(out; " {id}");
        }
        NodeAnswer::Refused(refusal) => refused(out, refusal),
    }
}

// What `patterns::try_apply` answers for a kind, two ids and a number of children, of which those from the third on are the second again;
// and the nodes that it added.
pub fn apply(
    out: &impl Print,
    nodes: &mut [u64],
    slots: &mut [u32],
    arena: DagArena,
    list: [u64; MOST_VALUES],
) -> DagArena {
    let kind = list[1];
    let lhs = list[2];
    let rhs = list[3];
    let arity = list[4];
    if !ready(nodes, slots, arena, lhs, rhs) {
        let _ = print!(out; " not ready");
        return arena;
    }
    if (MOST_CHILDREN as u64) < arity {
        let _ = print!(out; " too many");
        return arena;
    }
    let mut children = [rhs as u32; MOST_CHILDREN];
    children[0] = lhs as u32;
    let used = arity as usize;
    let Some(finished) = patterns::try_apply(
        nodes,
        slots,
        arena,
        Mode::Standard,
        kind,
        &children[..used],
    ) else {
        let _ = print!(out; " none");
        return arena;
    };
    let left = finished.arena;
    show(out, finished.answer);
    between(out, nodes, slots, left, arena.count, left.count);
    left
}
