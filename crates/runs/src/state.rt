// The state of a walk.
ghost use Rattle.store.specs.Held.{held, SameLists};
ghost use Rattle.turns.specs.Turns.{Turnable};
ghost use Rattle.runs.specs.States.{stack_of, Starts, Steps};

use definitions::mode::Mode;
use refusal::Refusal;
use store::Store;
use turns::state::{Arrays, Heights};
use turns::turn::turn;

/// How far a walk has come.
#[derive(Drop)]
pub struct Walk {
    pub arrays: Arrays,
    pub heights: Heights,
    pub mode: Mode,
    pub limit: usize,
    /// The refusal that stopped it, if one has.
    pub status: Result<(), Refusal>,
}

impl Walk {
    /// A walk of a root, which is always walked: it has the first frame.
    pub fn new(mode: Mode, root: u64, limit: usize) -> Walk
        ensures { Starts mode root limit result }
    {
        let arrays = Arrays::new(root);
        Walk {
            arrays,
            heights: Heights::first(),
            mode,
            limit,
            status: Ok(()),
        }
    }

    /// A turn. A walk goes on by taking its state and giving it back.
    pub fn step(mut self, store: &mut Store) -> Walk
        requires { Turnable (held store.old) self.limit (stack_of self) }
        ensures same { SameLists store.old store.new }
        ensures steps { Steps (held store.old) self (held store.new) result }
    {
        let mode = self.mode;
        let limit = self.limit;
        self.status = turn(store, &mut self.arrays, &mut self.heights, mode, limit);
        self
    }
}
