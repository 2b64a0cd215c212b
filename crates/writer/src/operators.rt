// Operators and kinds as texts have them: signs, and where an operand stands without brackets.
ghost use Rattle.writer.specs.Placing.{Ranked, JoinsKind};

use kinds::{ADD, DIV, MUL, POW, SUB};

// The ranks of the four kinds of text: each is one of the higher ones.
pub(crate) const FACTOR: u64 = 1;

pub(crate) const POWER: u64 = 2;

pub(crate) const PRODUCT: u64 = 3;

pub(crate) const SUM: u64 = 4;

// An operator of two operands: its sign, the ranks of what stands left and right of it without brackets, and how much deeper the right one
// stands.
#[derive(Clone, Copy)]
pub struct Joint {
    pub sign: u8,
    pub left: u64,
    pub right: u64,
    pub nesting: u64,
}

// The operator of a kind.
pub(crate) fn joint_of(kind: u64) -> Joint
    ensures { JoinsKind kind result }
{
    match kind {
        ADD => Joint {
            sign: b'+',
            left: SUM,
            right: PRODUCT,
            nesting: 0,
        },
        SUB => Joint {
            sign: b'-',
            left: SUM,
            right: PRODUCT,
            nesting: 0,
        },
        MUL => Joint {
            sign: b'*',
            left: PRODUCT,
            right: POWER,
            nesting: 0,
        },
        DIV => Joint {
            sign: b'/',
            left: PRODUCT,
            right: POWER,
            nesting: 0,
        },
        _ => Joint {
            sign: b'^',
            left: FACTOR,
            right: POWER,
            nesting: 1,
        },
    }
}

// The rank of a node's text without brackets.
pub(crate) fn rank(kind: u64) -> u64
    ensures { Ranked kind result }
{
    match kind {
        ADD | SUB => SUM,
        MUL | DIV => PRODUCT,
        POW => POWER,
        _ => FACTOR,
    }
}
