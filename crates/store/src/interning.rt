// The id of a node, old or new.
ghost use Rattle.std.specs.Prelude.{◌≡◌, ◌&&◌, ◌≤◌, length, ltb, Result};
ghost use Rattle.arena.specs.Layout.{arena_of};
ghost use Rattle.arena.specs.Node.{node_at, one};
ghost use Rattle.arena.specs.Key.{node_of_parts};
ghost use Rattle.definitions.specs.Node as N;
ghost use Rattle.store.specs.Sound.{Sound};
ghost use Rattle.store.specs.Lookup.{Fits};
ghost use Rattle.store.specs.Interning.{Interns, built_of};
ghost use Rattle.store.specs.Number.{answer_in, number_of};
ghost use Rattle.store.specs.Held.{node_answer};

use crate::holding::Store;
use crate::{Built, NodeAnswer};
use arena::{DagArena, Key, MOST_NODES, Parts, has_parts};
use dedup::get_or_insert;
use refusal::Refusal;

// An answer as one number, which is handed on in a register: an id is below this, and a refusal's number is added to it.
pub const REFUSALS: u64 = MOST_NODES;

/// The answer that a number stands for.
pub fn answer_in(number: u64) -> NodeAnswer
    ensures { result ≡ answer_in number }
{
    if REFUSALS <= number {
        NodeAnswer::Refused(number - REFUSALS)
    } else {
        NodeAnswer::Id(number)
    }
}

// The number that stands for an answer.
fn number_of(answer: Result<u64, Refusal>) -> u64
    ensures { result ≡ number_of (node_answer answer) }
{
    match answer {
        Ok(id) => id,
        Err(refusal) => REFUSALS + refusal.number(),
    }
}

impl<'a> Store<'a> {
    ghost use Rattle.store.specs.Held.{held, SameLists, FitsParts, InternsParts};

    /// The id of the node with these parts, old or new. An old node is found before anything is refused.
    ///
    /// # Errors
    ///
    /// `NoNodePlace` or `NoSlotPlace`, and nothing is changed.
    pub fn intern(&mut self, parts: Parts) -> Result<u64, Refusal>
        requires { FitsParts self.old.count parts }
        ensures same { SameLists self.old self.new }
        ensures interns { InternsParts (held self.old) parts.entry result (held self.new) }
    {
        let key = Key::new(parts);
        get_or_insert(self.nodes, self.slots, &mut self.count, &mut self.size, key)
    }

    // Whether a number is the id of a node that is one with a node of these parts.
    fn is_node(&self, id: u64, parts: Parts) -> bool
        ensures { result ≡ (ltb id self.now.count && one (node_at self.now.nodes.now id) (node_of_parts parts.entry)) }
    {
        if self.count <= id {
            return false;
        }
        has_parts(self.nodes, id, parts)
    }

    /// The id of the node with these parts. An id that may be the node's own is looked at first: if it is, no hash is made and no slot
    /// read.
    ///
    /// # Errors
    ///
    /// `NoNodePlace` or `NoSlotPlace`, and nothing is changed.
    pub fn intern_likely(&mut self, parts: Parts, likely: u64) -> Result<u64, Refusal>
        requires { FitsParts self.old.count parts }
        ensures same { SameLists self.old self.new }
        ensures interns { InternsParts (held self.old) parts.entry result (held self.new) }
    {
        if self.is_node(likely, parts) {
            return Ok(likely);
        }
        self.intern(parts)
    }
}

/// The id of a node with these parts, over lent lists. It stays beside the method since docs/CLAIMS.md names it.
pub fn intern(
    nodes: &mut [u64],
    slots: &mut [u32],
    arena: DagArena,
    kind: u64,
    payload: u64,
    flags: u64,
    children: &[u32],
) -> Built
    requires { Fits arena.count kind payload flags children.now × Sound nodes.old slots.old arena }
    ensures { Interns nodes.old slots.old arena (N.node kind payload flags children.now)
        nodes.new slots.new result }
{
    let mut store = Store::over(nodes, slots, arena);
    let answer = store.intern(Parts {
        kind,
        payload,
        flags,
        children,
    });
    store.built(answer)
}

/// The id of a node with these parts as a number, with the counts behind pointers. An id that may be the node's own is looked at first. It
/// stays beside the method since docs/DECISIONS.md names it.
pub fn intern_likely(
    nodes: &mut [u64],
    slots: &mut [u32],
    count: &mut u64,
    size: &mut usize,
    kind: u64,
    payload: u64,
    flags: u64,
    children: &[u32],
    likely: u64,
) -> u64
    requires { Fits count.old kind payload flags children.now × Sound nodes.old slots.old (arena_of count.old size.old) }
    ensures { Interns nodes.old slots.old (arena_of count.old size.old)
        (N.node kind payload flags children.now) nodes.new slots.new
        (built_of (answer_in result) count.new size.new) }
{
    let counts = DagArena {
        count: *count,
        size: *size,
    };
    let mut store = Store::over(nodes, slots, counts);
    let answer = store.intern_likely(
        Parts {
            kind,
            payload,
            flags,
            children,
        },
        likely,
    );
    *count = store.count;
    *size = store.size;
    number_of(answer)
}
