// Constants are held as binary64 bit patterns. A pattern is made a value, values are tested and folded, and a result is made a pattern
// again.
#![tactic(auto, using(crate::proofs::Values::zero_is, crate::proofs::Values::one_is, crate::proofs::Values::magnitude_is))]

ghost use Rattle.std.specs.Prelude.{◌≡◌};
ghost use Rattle.std.specs.Float.Ieee as Ieee;
ghost use Rattle.std.specs.Float.{binary64};
ghost use Rattle.fold.specs.Exactness.{Folds};
ghost use Rattle.fold.specs.Fold.{value_of, stored, zero, one, finite, magnitude};
ghost use Rattle.definitions.specs.Patterns.{unless_nan};
ghost use Rattle.std.proofs.Math.Option.{some};

use kinds::{ADD, DIV, MUL, SUB};
use text_language::{BITS_OF_INFINITY, SIGN_BIT, is_nan};

/// The bits of 0.0.
pub const BITS_OF_ZERO: u64 = 0;

// The value of a pattern. Every NaN pattern is the one `nan`.
fn value(bits: u64) -> f64
    ensures { result ≡ value_of bits }
{
    if is_nan(bits) {
        0.0 / 0.0
    } else {
        f64::from_bits(bits)
    }
}

/// Whether a pattern is that of 0.0 or -0.0.
pub fn is_zero(bits: u64) -> bool
    ensures { result ≡ Ieee.eq (value_of bits) zero }
{
    value(bits) == 0.0
}

/// Whether a pattern is that of 1.0.
pub fn is_one(bits: u64) -> bool
    ensures { result ≡ Ieee.eq (value_of bits) one }
{
    value(bits) == 1.0
}

/// Whether a pattern is that of a number, and of no infinity or NaN.
pub fn is_finite(bits: u64) -> bool
    ensures { result ≡ finite (value_of bits) }
{
    let x = value(bits);
    let infinity = f64::from_bits(BITS_OF_INFINITY);
    x < infinity && -infinity < x
}

/// Whether a pattern is that of a number above zero, or of the positive infinity.
pub fn is_positive(bits: u64) -> bool
    ensures { result ≡ Ieee.lt zero (value_of bits) }
{
    0.0 < value(bits)
}

/// Whether the absolute value of the first is at least the second; false at a NaN. Both are patterns.
pub fn reaches(bits: u64, threshold: u64) -> bool
    ensures { result ≡ Ieee.le (value_of threshold) (magnitude (value_of bits)) }
{
    value(threshold) <= value(bits % SIGN_BIT)
}

// The bits of a result. A NaN is declined.
fn bits_of(x: f64) -> Option<u64>
    ensures { result ≡ stored (unless_nan (some x)) }
{
    if x != x {
        return None;
    }
    Some(f64::to_bits(x))
}

/// The bits of a sum, difference, product or quotient of two constants, rounded once, ties to even: a number's. `None` where the kind does
/// not fold, the divisor is zero, or the result is a NaN.
pub fn fold(kind: u64, a: u64, b: u64) -> Option<u64>
    ensures { Folds kind a b result }
{
    let x = value(a);
    let y = value(b);
    match kind {
        ADD => bits_of(x + y),
        SUB => bits_of(x - y),
        MUL => bits_of(x * y),
        DIV if y != 0.0 => bits_of(x / y),
        _ => None,
    }
}
