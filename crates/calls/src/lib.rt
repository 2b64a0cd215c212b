// One encoded call of a controller, on a store and a name list: the codes are those of specs/Encoding.antt of encoding, and what a call
// leaves is what the public call that it stands for does.
#![tactic(auto)]

pub mod calling;
pub mod handing;
pub mod naming;
pub mod reading;

pub use calling::call;
pub use handing::{CallResult, Reply, at_first};
