// A fresh store.
ghost use Rattle.refusal.specs.Number.{by_number};
ghost use Rattle.builder.specs.Opens.{Opens};

use arena::DagArena;
use refusal::Refusal;
use slots::{FIRST_SIZE, rehash};

/// A store without nodes, with the first 64 slots empty.
///
/// # Errors
///
/// `NoSlotPlace` if fewer slots are lent. Nothing is changed then.
pub fn fresh(nodes: &[u64], slots: &mut [u32]) -> Result<DagArena, Refusal>
    ensures { Opens nodes.now slots.old (by_number result) slots.new }
{
    if slots.len() < FIRST_SIZE {
        return Err(Refusal::NoSlotPlace);
    }
    rehash(nodes, slots, FIRST_SIZE, 0);
    Ok(DagArena {
        count: 0,
        size: FIRST_SIZE,
    })
}
