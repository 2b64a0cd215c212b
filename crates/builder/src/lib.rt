// The builder's calls: each audits the store once, refuses or answers an id, and leaves a sound store. They take slices and counts, as C lends
// them.
#![tactic(auto)]

pub mod controls;
pub mod functions;
pub mod leaves;
pub mod opening;
pub mod operators;
pub mod reading;

pub use controls::{control, for_loop, if_else, select};
pub use functions::function;
pub use leaves::{constant, variable};
pub use opening::fresh;
pub use operators::{add, div, modulo, mul, neg, operator, pow, sub};
pub use reading::node;
