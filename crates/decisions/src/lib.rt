// What a pattern decides over the nodes as they are: what is to stand in an operator's place, and which pattern says so. The constants that
// patterns read, and folding, which the standard patterns and the strict ones share.
#![tactic(auto)]

pub mod constants;
pub mod firing;
pub mod folding;

/// A side of an operator of two operands.
#[derive(Clone, Copy, Debug, PartialEq, Eq)]
pub enum Side {
    Left,
    Right,
}

/// What stands in the operator's place: an id; a constant; or a constant and then an operator over it and another operand, the
/// constant on the side that is named.
#[derive(Clone, Copy, Debug, PartialEq, Eq)]
pub enum Replacement {
    Id(u64),
    Constant(u64),
    BesideConstant {
        kind: u64,
        bits: u64,
        other: u64,
        side: Side,
    },
}
