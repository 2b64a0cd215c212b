// The memory of a script: all that can be lent, 8,936 nodes, 16,384 slots and 124 names.
pub const WORDS: usize = 196_608;

pub const SLOTS: usize = 16_384;

pub const BYTES: usize = 4_096;
