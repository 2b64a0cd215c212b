// A turn of the walk's loop.
#![tactic(auto)]

pub mod state;
pub mod turn;
