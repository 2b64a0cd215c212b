// Calls as words of 32 bits, as specs/Encoding.antt says: their codes, the next call of a list, and the name or text that operands spell.
#![tactic(auto)]

pub mod codes;
pub mod finding;
pub mod headers;
pub mod spelling;
