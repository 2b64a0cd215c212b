// The call of a store that a header stands for.
ghost use Rattle.std.specs.Prelude.{◌≡◌, ◌<◌};
ghost use Rattle.encoding.specs.Encoding as Encoding;
ghost use Rattle.encoding.specs.Encoding.{first_naming};
ghost use Rattle.encoding.specs.Codes.{code_of};
ghost use Rattle.encoding.specs.Headers.{header_call, DecodesTo};

use crate::codes::CallCode;
use definitions::mode::Mode;
use store_calls::{Call, codes as node_codes};

// How many values a word of 32 bits has.
const WORD_VALUES: u64 = 4_294_967_296;

/// The words before a call's operands, but for the number of these.
#[derive(Clone, Copy)]
pub struct Header {
    pub code: CallCode,
    /// The numbers a and b, and the high and the low half of a number of 64 bits.
    pub numbers: [u32; 4],
}

// A number of 64 bits by its halves.
fn wide(high: u32, low: u32) -> u64
    ensures { result ≡ Encoding.wide high low }
{
    u64::from(high) * WORD_VALUES + u64::from(low)
}

/// The call of a store that a header has, over the operands behind the header or over the first of the header's numbers.
pub fn store_call<'a>(header: &'a Header, operands: &'a [u32]) -> Call<'a>
    requires { code_of header.now.code < first_naming }
    ensures { DecodesTo (header_call header.now operands.now) result }
{
    let [a, b, high, low] = header.numbers;
    let numbers = &header.numbers;
    match header.code {
        CallCode::Variable => Call::Variable(a),
        CallCode::Constant => Call::Constant(wide(high, low)),
        CallCode::Add => Call::Operator {
            code: node_codes::ADD,
            flags: node_codes::REORDERABLE,
            operands: &numbers[..2],
        },
        CallCode::Sub => Call::Operator {
            code: node_codes::SUB,
            flags: node_codes::NO_FLAGS,
            operands: &numbers[..2],
        },
        CallCode::Mul => Call::Operator {
            code: node_codes::MUL,
            flags: node_codes::REORDERABLE,
            operands: &numbers[..2],
        },
        CallCode::Div => Call::Operator {
            code: node_codes::DIV,
            flags: node_codes::NO_FLAGS,
            operands: &numbers[..2],
        },
        CallCode::Pow => Call::Operator {
            code: node_codes::POW,
            flags: node_codes::NO_FLAGS,
            operands: &numbers[..2],
        },
        CallCode::Modulo => Call::Operator {
            code: node_codes::MOD,
            flags: node_codes::NO_FLAGS,
            operands: &numbers[..2],
        },
        CallCode::Neg => Call::Operator {
            code: node_codes::NEG,
            flags: node_codes::NO_FLAGS,
            operands: &numbers[..1],
        },
        CallCode::Operator => Call::Operator {
            code: a,
            flags: b,
            operands,
        },
        CallCode::Function => Call::Function {
            number: a,
            operands,
        },
        CallCode::Select => Call::Control {
            code: node_codes::SELECT,
            operands: &numbers[..3],
        },
        CallCode::IfElse => Call::Control {
            code: node_codes::IF_ELSE,
            operands: &numbers[..3],
        },
        CallCode::ForLoop => Call::Control {
            code: node_codes::FOR_LOOP,
            operands: numbers,
        },
        CallCode::Control => Call::Control { code: a, operands },
        CallCode::Simplify => Call::Simplify {
            mode: Mode::Standard,
            root: a,
            depth: b,
            budget: wide(high, low),
        },
        CallCode::Prune => Call::Prune {
            root: a,
            threshold: wide(high, low),
        },
        CallCode::PruneBySetting => Call::PruneBySetting {
            root: a,
            setting: b,
        },
        CallCode::SimplifyStrictly => Call::Simplify {
            mode: Mode::Strict,
            root: a,
            depth: b,
            budget: wide(high, low),
        },
        CallCode::Intern | CallCode::Lookup | CallCode::NameOf | CallCode::Read => unreachable!(),
    }
}
