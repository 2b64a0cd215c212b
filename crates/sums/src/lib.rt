// The sum of the terms that a prune keeps, interned in a sound store.
#![tactic(auto)]

pub mod sum;

pub use sum::{balanced_add, sum_of_terms};
