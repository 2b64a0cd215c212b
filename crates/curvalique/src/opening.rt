// A fresh store.
ghost use Rattle.std.specs.Prelude.{[], ◌∷◌};
ghost use Rattle.builder.specs.Opens.{Opens};
ghost use Rattle.outputs.specs.Calls.{OutputsStay};
ghost use Rattle.curvalique.specs.Opening.{fresh_unless_refused};

use outputs::leaving::{ANSWERED, leave_arena};

// A store without nodes, with the first slots empty.
pub fn curvalique_fresh(nodes: &[u64], slots: &mut [u32], count: &mut u64, size: &mut usize) -> u64
    ensures opens { Opens nodes.now slots.old (fresh_unless_refused result count.new size.new)
        slots.new }
    ensures outputs_stay { OutputsStay result (count.old ∷ size.old ∷ []) (count.new ∷ size.new ∷ []) }
{
    match builder::fresh(nodes, slots) {
        Ok(arena) => {
            leave_arena(arena, count, size);
            ANSWERED
        }
        Err(refusal) => refusal.number(),
    }
}
