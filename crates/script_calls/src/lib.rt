// A script's calls: made by the numbers of a line, shown with what they leave, and a node's text written. Nothing is promised of them but
// that they are safe and end.
#![tactic(auto)]

pub mod calling;
pub mod showing;
pub mod state;
pub mod writing;
