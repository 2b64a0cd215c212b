// The C interface: the calls of crate curvalique for include/curvalique.h, each with the same clauses. A call returns 0 and leaves its
// answer behind pointers, or returns the number of a refusal. A slice is a pointer and a length.
#![tactic(auto)]

pub mod functions;
pub mod leaves;
pub mod listings;
pub mod naming;
pub mod opening;
pub mod operators;
pub mod reading;
pub mod rewriting;
pub mod sheets;
pub mod texts;
pub mod writing;
