// The first line of a listing (01, "sheets and the listing") as a number.
pub const OK: u64 = 0;

pub const EMPTY: u64 = 1;

pub const SPENT: u64 = 2;

pub const REFUSED: u64 = 3;
