// A node read back.
ghost use Rattle.refusal.specs.Number.{by_number};
ghost use Rattle.builder.specs.Reads.{ReadsNode};

use arena::{DagArena, DagNode, load};
use refusal::Refusal;
use store::audit;

/// The node of an id.
///
/// # Errors
///
/// `NotSound`, then `BadOperand` if no node has this id.
pub fn node(nodes: &[u64], slots: &[u32], arena: DagArena, id: u32) -> Result<DagNode, Refusal>
    ensures { ReadsNode nodes.now slots.now arena id (by_number result) }
{
    if !audit(nodes, slots, arena) {
        return Err(Refusal::NotSound);
    }
    let id = u64::from(id);
    if arena.count <= id {
        return Err(Refusal::BadOperand);
    }
    Ok(load(nodes, id))
}
