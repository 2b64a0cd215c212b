// The language of texts: definitions and proofs, the two limits of a text, the numbers of the refusals that it meets, and
// which bits are a NaN's.
#![tactic(auto)]

ghost use Rattle.std.specs.Prelude.{◌≡◌};
ghost use Rattle.std.specs.Float.{binary64};
ghost use Rattle.std.specs.Float.Ieee.{nan_bits};

// The most bytes of a text.
pub const MOST_BYTES: usize = 8192;

// How deep brackets, minus factors and powers may nest.
pub const MOST_NESTED: usize = 64;

// "A text of 0 or over 8,192 bytes meets 1."
pub const BAD_TEXT: u64 = 1;

// "a constant whose bits are a NaN"
pub const NOT_A_NUMBER: u64 = 10;

// "text outside the language"
pub const OUTSIDE_LANGUAGE: u64 = 11;

// "brackets, minus factors and powers, counted together, nested over 64 deep"
pub const NESTED_TOO_DEEP: u64 = 12;

// With the sign's bit off, the patterns above the infinity's are those of NaN.
pub const BITS_OF_INFINITY: u64 = 0x7ff0_0000_0000_0000;

// 2^63: the weight of the sign's bit.
pub const SIGN_BIT: u64 = 0x8000_0000_0000_0000;

// Whether bits are a NaN's: quiet or signalling, of either sign.
pub fn is_nan(bits: u64) -> bool
    ensures { result ≡ nan_bits binary64 bits }
{
    bits % SIGN_BIT > BITS_OF_INFINITY
}
