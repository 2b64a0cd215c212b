// The codes of the operators and controls, and the flags of a sum or product.
pub const ADD: u32 = 0;

pub const SUB: u32 = 1;

pub const MUL: u32 = 2;

pub const DIV: u32 = 3;

pub const POW: u32 = 4;

pub const MOD: u32 = 5;

pub const NEG: u32 = 6;

pub const SELECT: u32 = 0;

pub const IF_ELSE: u32 = 1;

pub const FOR_LOOP: u32 = 2;

pub const NO_FLAGS: u32 = 0;

// The flags of a sum or a product; the other operators that have a constructor of their own have none.
pub const REORDERABLE: u32 = 3;
