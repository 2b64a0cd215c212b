// The public calls over numbers and lent slices, as C has them: crate curvalique_c exports them for include/curvalique.h. A call returns
// 0 and leaves its answer behind references, or returns the number of a refusal.
#![tactic(auto)]

pub mod functions;
pub mod leaves;
pub mod listings;
pub mod naming;
pub mod opening;
pub mod operators;
mod performing;
pub mod reading;
pub mod rewriting;
pub mod sheets;
pub mod texts;
pub mod writing;
