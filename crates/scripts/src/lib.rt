// The parts of a program that runs scripts: a script's lines and numbers, what is printed, and a memory that is compared. Nothing is
// promised of them but that they are safe and end.
#![tactic(auto)]

pub mod lines;
pub mod memory;
pub mod printing;
pub mod tokens;
