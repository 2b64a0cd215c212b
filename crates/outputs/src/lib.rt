// What a call answered, left behind the caller's pointers: for the C interface, whose functions return 0 for an answer, or a refusal's
// number.
#![tactic(auto)]

pub mod forms;
pub mod leaving;
pub mod listings;
pub mod naming;
pub mod sheets;
