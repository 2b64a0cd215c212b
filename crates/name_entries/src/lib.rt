// The entries of a lent name list, a name's bytes each.
#![tactic(auto)]

pub mod entry;
