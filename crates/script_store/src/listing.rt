// Nodes as they are read back.
use arena::DagArena;

// More ids than a script's store has.
const MOST_LISTED: u64 = 10_000;

// On a line of its own the id, kind, payload, flags, the number of children and the children; or a refusal.
fn node(out: &impl Print, nodes: &[u64], slots: &[u32], arena: DagArena, id: u32) {
    let _ = print!(out; "\n    {id}");
    match builder::node(nodes, slots, arena, id) {
        Err(refusal) => {
            let _ = print!(out; " refused {}", refusal.number());
        }
        Ok(node) => {
            let _ = print!(out;
                " {} {:016x} {} {}:",
                node.kind, node.payload, node.flags, node.arity
            );
            for child in node.children.iter().take(node.arity as usize) {
                let _ = print!(out; " {child}");
            }
        }
    }
}

/// The nodes from one id on and before another.
pub fn between(
    out: &impl Print,
    nodes: &[u64],
    slots: &[u32],
    arena: DagArena,
    from: u64,
    end: u64,
) {
    for id in from..end.min(MOST_LISTED) {
        node(out, nodes, slots, arena, id as u32);
    }
}
