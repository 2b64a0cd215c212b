// The terms of an additive chain that a threshold keeps, read from a sound store without writing to it.
#![tactic(auto)]

pub mod chain;

pub use chain::{MOST_TERMS, Terms, flatten};
