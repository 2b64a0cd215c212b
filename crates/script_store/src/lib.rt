// The store of a script: the patterns by themselves, words, slots and bytes set and shown, hashes and slots made anew, and nodes as they
// are read back. Nothing is promised of them but that they are safe and end.
#![tactic(auto)]

pub mod applying;
pub mod damage;
pub mod filling;
pub mod listing;
