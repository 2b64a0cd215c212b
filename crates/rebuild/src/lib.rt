// What a finished frame of the walk gives: its node rebuilt or matched, the result's mark, and which pattern fired.
#![tactic(auto)]

ghost use Rattle.std.specs.Prelude.{◌≡◌, ◌<◌};
ghost use Rattle.definitions.specs.Modes.{mode_of};
ghost use Rattle.definitions.specs.Walk.{rebuilt_flags};
ghost use Rattle.store.specs.Held.{held, SameLists};
ghost use Rattle.rebuild.specs.Memory.{memory};
ghost use Rattle.rebuild.specs.Rebuild.{Rebuildable, Anew, Rebuilds, MarkedIn, Finishes, FinishesIn};

use arena::{DagArena, REORDERABLE};
use definitions::mode::Mode;
use kinds::{ADD, MUL};
use patterns::{Finished, Rewritten};
use refusal::Refusal;
use store::{Parts, Store};

// The flags of every constructor but `add` and `mul`, which give `REORDERABLE`.
const OTHER_FLAGS: u64 = 0;

// How many children the constructors `add` and `mul` take.
const CONSTRUCTED_ARITY: u64 = 2;

// The flags of a rebuilt node: an Add or Mul of one, three or four children gets those of other constructors.
fn rebuilt_flags(kind: u64, arity: u64) -> u64
    ensures { result ≡ rebuilt_flags kind arity }
{
    if arity == CONSTRUCTED_ARITY && (kind == ADD || kind == MUL) {
        REORDERABLE
    } else {
        OTHER_FLAGS
    }
}

// The node itself where the children are the old ones, or a node anew.
fn rebuild(store: &mut Store, id: u64, children: &[u32]) -> Result<u64, Refusal>
    requires { Rebuildable (held store.old) id children.now }
    ensures same { SameLists store.old store.new }
    ensures anew { Anew (held store.old) id children.now result (held store.new) }
{
    if store.has_children(id, children) {
        return Ok(id);
    }
    let kind = store.kind(id);
    let payload = store.payload(id);
    let flags = rebuilt_flags(kind, children.len() as u64);
    store.intern(Parts {
        kind,
        payload,
        flags,
        children,
    })
}

// The first pattern of a mode that fits a node over new children, or the node rebuilt.
fn rebuild_or_match(
    store: &mut Store,
    mode: Mode,
    id: u64,
    children: &[u32],
) -> Result<Rewritten, Refusal>
    requires { Rebuildable (held store.old) id children.now }
    ensures same { SameLists store.old store.new }
    ensures rebuilds { Rebuilds (mode_of mode) (held store.old) id children.now result (held store.new) }
{
    let kind = store.kind(id);
    if let Some(rewritten) = patterns::apply_in(store, mode, kind, children)? {
        return Ok(rewritten);
    }
    let id = rebuild(store, id, children)?;
    Ok(Rewritten { id, fired: None })
}

// The mark of a result. A strict walk sets no marks.
fn mark(store: &mut Store, mode: Mode, id: u64)
    requires { id < store.old.count }
    ensures same { SameLists store.old store.new }
    ensures marks { MarkedIn (mode_of mode) (held store.old) id (held store.new) }
{
    match mode {
        Mode::Standard => store.mark(id),
        Mode::Strict => {}
    }
}

/// A finished frame, its node rebuilt or matched, and its result marked.
///
/// # Errors
///
/// `NoNodePlace` or `NoSlotPlace`. A constant that was made before its operator stays.
pub fn finish_in(
    store: &mut Store,
    mode: Mode,
    id: u64,
    children: &[u32],
) -> Result<Rewritten, Refusal>
    requires { Rebuildable (held store.old) id children.now }
    ensures same { SameLists store.old store.new }
    ensures finishes { FinishesIn (mode_of mode) (held store.old) id children.now result (held store.new) }
{
    let rewritten = rebuild_or_match(store, mode, id, children)?;
    mark(store, mode, rewritten.id);
    Ok(rewritten)
}

/// The same on lent lists that are known to be sound. It stays over slices since docs/ARCHITECTURE.md names it.
pub fn finish(
    nodes: &mut [u64],
    slots: &mut [u32],
    arena: DagArena,
    mode: Mode,
    id: u64,
    children: &[u32],
) -> Finished
    requires { Rebuildable (memory nodes.old slots.old arena) id children.now }
    ensures { Finishes (mode_of mode) (memory nodes.old slots.old arena) id children.now result.answer
        result.fired (memory nodes.new slots.new result.arena) }
{
    let mut store = Store::over(nodes, slots, arena);
    let answer = finish_in(&mut store, mode, id, children);
    Finished::of(answer, store.arena())
}
