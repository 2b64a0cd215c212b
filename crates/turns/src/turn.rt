// A turn of the walk's loop.
ghost use Rattle.std.specs.Prelude.{◌≡◌, ◌<◌};
ghost use Rattle.definitions.specs.Modes.{mode_of};
ghost use Rattle.definitions.specs.Walk.{taken_unwalked};
ghost use Rattle.store.specs.Held.{held, node_in, SameLists};
ghost use Rattle.store.specs.View.{nodes_in};
ghost use Rattle.turns.specs.Stack.{stack};
ghost use Rattle.turns.specs.Turns.{Descendable, Descends, Turnable, Turns};

use crate::state::{Arrays, Frame, Heights};
use definitions::mode::Mode;
use refusal::Refusal;
use store::Store;

// A child that is a leaf or marked is taken unwalked. A leaf has no children, and a strict walk heeds no marks.
fn is_taken_unwalked(store: &Store, mode: Mode, id: u64) -> bool
    requires { id < store.now.count }
    ensures { result ≡ taken_unwalked (mode_of mode) (node_in store.now id) }
{
    if store.arity(id) == 0 {
        return true;
    }
    match mode {
        Mode::Standard => store.is_canonical(id),
        Mode::Strict => false,
    }
}

// The next child of the top frame: its id as a value, or a frame for it.
fn descend(store: &Store, arrays: &mut Arrays, heights: &mut Heights, mode: Mode)
    requires { Descendable store.now.nodes.now store.now.count (stack arrays.old heights.old) }
    ensures { Descends (mode_of mode) (nodes_in store.now.nodes.now store.now.count)
        (stack arrays.old heights.old) (stack arrays.new heights.new) }
{
    let top = heights.depth - 1;
    let Frame { id, taken } = arrays.frames[top];
    let child = store.children(id)[taken];
    arrays.frames[top] = Frame {
        id,
        taken: taken + 1,
    };
    if is_taken_unwalked(store, mode, child) {
        arrays.give(heights, child);
        return;
    }
    arrays.push(heights, child);
}

/// A turn at the top frame, which is left, or whose next child is taken.
///
/// # Errors
///
/// `NoNodePlace` or `NoSlotPlace`, where a frame's new node is refused. That stops the walk; what was interned and marked before stays.
pub fn turn(
    store: &mut Store,
    arrays: &mut Arrays,
    heights: &mut Heights,
    mode: Mode,
    limit: usize,
) -> Result<(), Refusal>
    requires { Turnable (held store.old) limit (stack arrays.old heights.old) }
    ensures same { SameLists store.old store.new }
    ensures turns { Turns (mode_of mode) (held store.old) limit (stack arrays.old heights.old)
        (held store.new) (stack arrays.new heights.new) result }
{
    let top = heights.depth - 1;
    let Frame { id, taken } = arrays.frames[top];
    let base = heights.filled - taken;
    // A frame at the limit is its own value, unmarked.
    if limit <= top {
        arrays.leave(heights, base, id);
        return Ok(());
    }
    if taken < store.arity(id) as usize {
        descend(store, arrays, heights, mode);
        return Ok(());
    }
    let children = &arrays.values[base..heights.filled];
    let rewritten = rebuild::finish_in(store, mode, id, children)?;
    arrays.leave(heights, base, rewritten.id);
    Ok(())
}
