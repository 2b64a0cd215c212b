// What is handed on from line to line: the counts, how much is lent, and a list of calls.
use arena::DagArena;
use scripts::printing::refused;

// The words of the longest list of calls.
pub const LIST_WORDS: usize = 600;

#[derive(Clone, Copy)]
pub struct Now {
    pub arena: DagArena,
    pub names: usize,
    /// How many words, slots and bytes are lent.
    pub words: usize,
    pub places: usize,
    pub bytes: usize,
    /// How often the next call is made.
    pub turns: u32,
    /// A list of calls as words, and how many of them are written.
    pub list: [u32; LIST_WORDS],
    pub written: usize,
}

const NO_STORE: DagArena = DagArena { count: 0, size: 0 };

impl Now {
    pub fn new() -> Now {
        Now {
            arena: NO_STORE,
            names: 0,
            words: 0,
            places: 0,
            bytes: 0,
            turns: 1,
            list: [0; LIST_WORDS],
            written: 0,
        }
    }

    /// A fresh store, no names and no list.
    pub fn refresh(&mut self, out: &impl Print, nodes: &[u64], slots: &mut [u32]) {
        self.arena = match builder::fresh(nodes, slots) {
            Ok(arena) => {
                let _ = print!(out; " slots {}", arena.size);
                arena
            }
            Err(refusal) => {
                refused(out, refusal.number());
                NO_STORE
            }
        };
        self.names = 0;
        self.written = 0;
    }
}
