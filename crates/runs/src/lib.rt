// The state of a walk, and its run: a budget of turns at most.
#![tactic(auto)]

pub mod run;
pub mod state;

/// What a walk answers.
#[derive(Clone, Copy, Debug, PartialEq, Eq)]
pub struct Simplified {
    /// What the root was simplified to; the root itself where the budget was used up.
    pub id: u64,
    /// Whether the budget was used up with frames left.
    pub spent: bool,
    /// How many turns were done.
    pub steps: u64,
}
