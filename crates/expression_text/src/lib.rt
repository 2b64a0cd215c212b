// The text of an expression: definitions and proofs alone, and the numbers that the writer shares with them.
#![tactic(auto)]

/// The greatest whole constant that is printed in digits.
pub const MOST_WHOLE: u64 = 999_999_999;

/// The byte that opens a bracket.
pub const OPENING_BRACKET: u8 = b'(';

/// The byte that closes one.
pub const CLOSING_BRACKET: u8 = b')';

/// The byte of a minus.
pub const MINUS: u8 = b'-';

/// The byte before hex digits.
pub const NUMBER_SIGN: u8 = b'#';
