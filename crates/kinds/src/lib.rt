// 01: "Kind, from `kind_disc`: 0 variable (payload its symbol), 1 constant (payload the binary64 bits), 2 to 8
// operator Add, Sub, Mul, Div, Pow, Mod, Neg (payload 0), 16 function (payload its number), 32 control (payload
// 0 Select, 1 IfElse, 2 ForLoop)."
#![tactic(auto)]

ghost use Rattle.std.specs.Prelude.{◌≡◌, ◌≤◌, ◌<◌};
ghost use Rattle.definitions.specs.Node.{constant_kind, add_kind, neg_kind, nan_constant};
ghost use Rattle.kinds.specs.Kind.{operator_arity, control_arity, listed};

use definitions::MOST_CHILDREN;
use text_language::is_nan;

pub const VARIABLE: u64 = 0;

pub const CONSTANT: u64 = 1;

pub const ADD: u64 = 2;

pub const SUB: u64 = 3;

pub const MUL: u64 = 4;

pub const DIV: u64 = 5;

pub const POW: u64 = 6;

pub const MOD: u64 = 7;

pub const NEG: u64 = 8;

pub const FUNCTION: u64 = 16;

pub const CONTROL: u64 = 32;

pub const SELECT: u64 = 0;

pub const IF_ELSE: u64 = 1;

pub const FOR_LOOP: u64 = 2;

// Symbols and function numbers are below 2^32.
pub const NUMBERS: u64 = 4_294_967_296;
// How many children an operator has at least and at most, a hexadecimal digit for each kind, that of kind 0 last: Add and
// Mul one to four, Neg one, other operators two. A digit is read without a branch on the kind, which cannot be foreseen.
const LEAST_OPERANDS: u64 = 0x1_2221_2100;

const MOST_OPERANDS: u64 = 0x1_2224_2400;

// A hexadecimal digit has 4 bits and is below 16.
const DIGIT_BITS: u64 = 4;

const DIGITS: u64 = 16;

// Whether an operator has so many children.
fn operator_arity(kind: u64, arity: u64) -> bool
    requires { (add_kind ≤ kind) × (kind ≤ neg_kind) }
    ensures { result ≡ operator_arity kind arity }
{
    let below = kind * DIGIT_BITS;
    if arity < (LEAST_OPERANDS >> below) % DIGITS {
        return false;
    }
    arity <= (MOST_OPERANDS >> below) % DIGITS
}

// Whether a control has so many children.
#[tactic(auto, unfolding(crate::specs::Kind::control_arity))]
fn control_arity(control: u64, arity: u64) -> bool
    ensures { result ≡ control_arity control arity }
{
    match control {
        SELECT | IF_ELSE => arity == 3,
        FOR_LOOP => arity == 4,
        _ => false,
    }
}

// 02 (b): whether it is "a constant whose bits are a NaN".
pub fn is_nan_constant(kind: u64, payload: u64) -> bool
    ensures { result ≡ nan_constant kind payload }
{
    if kind == CONSTANT {
        return is_nan(payload);
    }
    false
}

// Whether payload and child count of a variable or constant are as listed.
fn is_listed_leaf(kind: u64, payload: u64, arity: u64) -> bool
    requires { kind ≤ constant_kind }
    ensures { result ≡ listed kind payload arity }
{
    if arity != 0 {
        return false;
    }
    if kind == CONSTANT {
        return !is_nan(payload);
    }
    payload < NUMBERS
}

// Whether kind, payload and child count are as listed, of a kind past the operators.
fn is_listed_other(kind: u64, payload: u64, arity: u64) -> bool
    requires { neg_kind < kind }
    ensures { result ≡ listed kind payload arity }
{
    match kind {
        FUNCTION => {
            if payload < NUMBERS {
                arity <= MOST_CHILDREN as u64
            } else {
                false
            }
        }
        CONTROL => control_arity(payload, arity),
        _ => false,
    }
}

// Whether kind, payload and child count are as listed.
pub fn is_listed(kind: u64, payload: u64, arity: u64) -> bool
    ensures { result ≡ listed kind payload arity }
{
    match kind {
        VARIABLE..=CONSTANT => is_listed_leaf(kind, payload, arity),
        ADD..=NEG => {
            if payload == 0 {
                operator_arity(kind, arity)
            } else {
                false
            }
        }
        _ => is_listed_other(kind, payload, arity),
    }
}
