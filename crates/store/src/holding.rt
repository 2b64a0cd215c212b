// A store that holds the lists which are lent to it.
ghost use Rattle.std.specs.Prelude.{◌≡◌, ◌<◌, length};
ghost use Rattle.arena.specs.Layout.{arena_of};
ghost use Rattle.store.specs.Sound.{Sound};
ghost use Rattle.store.specs.SoundProp.{Sound-prop};

use crate::{Built, NodeAnswer, lookup};
use arena::{ARITY, CHILDREN, DagArena, NODE_WORDS};
use refusal::Refusal;

/// A sound store over lent words and slots: its nodes stand in the first `count * 22` words, its table in the first `size` slots.
#[derive(Drop)]
pub struct Store<'a> {
    pub nodes: &'a mut [u64],
    pub slots: &'a mut [u32],
    pub count: u64,
    pub size: usize,
    ghost sound: { Sound nodes.now slots.now (arena_of count size) } by { Sound-prop nodes.now slots.now (arena_of count size) },
}

impl<'a> Store<'a> {
    ghost use Rattle.store.specs.Held.{held, node_in, SameLists, built_in};
    ghost use Rattle.store.specs.Memory.{memory};
    ghost use Rattle.store.specs.Lookup.{Marked};
    ghost use Rattle.definitions.specs.Node as N;

    /// A store over lists that are known to be sound with these counts, as after an audit.
    pub fn over(nodes: &'a mut [u64], slots: &'a mut [u32], arena: DagArena) -> Store<'a>
        requires { Sound nodes.old slots.old arena }
        ensures nodes { result.nodes.ghost_name ≡ nodes.entry.ghost_name }
        ensures slots { result.slots.ghost_name ≡ slots.entry.ghost_name }
        ensures memory { held result ≡ memory nodes.old slots.old arena }
    {
        Store {
            nodes,
            slots,
            count: arena.count,
            size: arena.size,
        }
    }

    /// How many nodes the store has, and how many slots its table has.
    pub fn arena(&self) -> DagArena
        ensures { result ≡ (held self.now).arena }
    {
        DagArena {
            count: self.count,
            size: self.size,
        }
    }

    /// An answer of this store, with its refusal's number and the counts after it.
    pub fn built(&self, answer: Result<u64, Refusal>) -> Built
        ensures { result ≡ built_in answer (held self.now) }
    {
        let answer = match answer {
            Ok(id) => NodeAnswer::Id(id),
            Err(refusal) => NodeAnswer::Refused(refusal.number()),
        };
        Built {
            answer,
            arena: self.arena(),
        }
    }

    /// The kind of a node.
    pub fn kind(&self, id: u64) -> u64
        requires { id < self.now.count }
        ensures { result ≡ (node_in self.now id).kind }
    {
        lookup::kind(self.nodes, self.count, id)
    }

    /// The payload of a node.
    pub fn payload(&self, id: u64) -> u64
        requires { id < self.now.count }
        ensures { result ≡ (node_in self.now id).payload }
    {
        lookup::payload(self.nodes, self.count, id)
    }

    /// Whether a node is marked.
    pub fn is_canonical(&self, id: u64) -> bool
        requires { id < self.now.count }
        ensures { result ≡ (node_in self.now id).canonical }
    {
        lookup::is_canonical(self.nodes, self.count, id)
    }

    /// How many children a node has.
    pub fn arity(&self, id: u64) -> u64
        requires { id < self.now.count }
        ensures { result ≡ length (node_in self.now id).children }
    {
        lookup::arity(self.nodes, self.count, id)
    }

    /// The children of a node, lent.
    pub fn children(&self, id: u64) -> &[u64]
        requires { id < self.now.count }
        ensures { result.now ≡ (node_in self.now id).children }
    {
        let at = id as usize * NODE_WORDS;
        let from = at + CHILDREN;
        let arity = self.nodes[at + ARITY] as usize;
        &self.nodes[from..from + arity]
    }

    /// Whether a node's children are these, as many as it has.
    pub fn has_children(&self, id: u64, children: &[u32]) -> bool
        requires id { id < self.now.count }
        requires count { length children.now ≡ length (node_in self.now id).children }
        ensures { result ≡ N.same_children (node_in self.now id).children children.now }
    {
        lookup::has_children(self.nodes, self.count, id, children)
    }

    /// A node's mark set.
    pub fn mark(&mut self, id: u64)
        requires { id < self.old.count }
        ensures same { SameLists self.old self.new }
        ensures marks { Marked self.old.nodes.now self.old.count id self.new.nodes.now }
        ensures slots { self.new.slots.now ≡ self.old.slots.now }
        ensures arena { (held self.new).arena ≡ (held self.old).arena }
    {
        lookup::mark(self.nodes, self.count, id);
    }
}
