// The numbers of the refusals, each with what it says. `specs/Refusals` has the same numbers for the statements; those that a
// text meets stand in text_language, 10 among them, which a store call and a sheet meet too.

// "sheet empty, over 16,384 bytes, or first byte not 1"
pub const BAD_SHEET: u64 = 1;
// "record past the end, unknown, or wrong length"
pub const BAD_RECORD: u64 = 2;
// "record 1,024 reached"
pub const TOO_MANY_RECORDS: u64 = 3;
// "operand not earlier, or id not below the count"
pub const BAD_OPERAND: u64 = 4;
// "operator, flags, control or depth value not listed"
pub const BAD_CODE: u64 = 5;
// "number of children"
pub const BAD_CHILD_COUNT: u64 = 6;
// "threshold NaN or sign bit set"
pub const BAD_THRESHOLD: u64 = 7;
// "setting", above 200
pub const BAD_SETTING: u64 = 8;
// "name length"
pub const BAD_NAME_LENGTH: u64 = 9;
// "a node that has no text, or a symbol without a name of the text's form"
pub const NO_TEXT: u64 = 13;
// "text over 8,192 bytes, longer than the lent text buffer, or too deep for reading"
pub const TEXT_TOO_LONG: u64 = 14;
// "store or name list not sound"
pub const NOT_SOUND: u64 = 20;
// "no place for a new node"
pub const NO_NODE_PLACE: u64 = 21;
// "a new node needs a doubling and the lent slots are too few; also a fresh store with under 64"
pub const NO_SLOT_PLACE: u64 = 22;
// "over 4,096 terms"
pub const TOO_MANY_TERMS: u64 = 23;
// "no name place"
pub const NO_NAME_PLACE: u64 = 24;
