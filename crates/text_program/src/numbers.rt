// Numbers as they are typed: 1 to 9 digits, or # and 16 hex digits of binary64 bits.
ghost use Rattle.std.specs.Prelude.{◌≡◌, false, ◌^◌, ◌≤◌, length, drop, get_or};
ghost use Rattle.text_language.specs.Grammar.{is_letter, whole_bits};
ghost use Rattle.text_language.specs.Reader.{atom_of};
ghost use Rattle.text_language.specs.Program.{atom_token, number};
ghost use Rattle.text_program.specs.Numbers.{base, accepts, word_values, DigitsRead};

use crate::places::BITS_DIGITS;
use text_bytes::{digit_value, is_digit, is_hex};

// What digits say, and how many there are.
#[derive(Clone, Copy)]
pub(crate) struct Digits {
    pub value: u64,
    pub count: usize,
}

// A number has 1 to 9 digits.
const MOST_DIGITS: usize = 9;

// How many values a digit has.
#[derive(Clone, Copy, Debug, PartialEq, Eq)]
pub(crate) enum Radix {
    Decimal = 10,
    Hexadecimal = 16,
}

impl Radix {
    // Whether a byte is a digit of this radix.
    fn accepts(self, byte: u8) -> bool
        ensures { result ≡ accepts self byte }
    {
        match self {
            Radix::Decimal => is_digit(byte),
            Radix::Hexadecimal => is_hex(byte),
        }
    }

    fn value(self) -> u64
        ensures { result ≡ base self }
    {
        self as u64
    }
}

// As many digits as there are from a place on, at most so many.
fn digits_at(text: &[u8], from: usize, radix: Radix, most: usize) -> Digits
    requires inside { from ≤ length text.now }
    requires fits { base radix ^ most ≤ word_values }
    ensures { DigitsRead text.now from radix most result }
{
    let mut value: u64 = 0;
    for count in 0..most {
        let at = from + count;
        if at >= text.len() || !radix.accepts(text[at]) {
            return Digits { value, count };
        }
        value = value * radix.value() + digit_value(text[at]);
    }
    Digits { value, count: most }
}

// The bits of a whole number.
fn whole_bits(n: u32) -> u64
    ensures { result ≡ whole_bits n }
{
    f64::from(n).to_bits()
}

/// The bits of the number that starts at a place where no name starts, or 0.
pub fn bits_at(text: &[u8], at: usize) -> u64
    requires { is_letter (get_or text.now at 0) ≡ false }
    ensures { atom_token (atom_of (drop at text.now)) ≡ number result }
{
    if at >= text.len() {
        return 0;
    }
    let first = text[at];
    if is_digit(first) {
        let whole = digits_at(text, at, Radix::Decimal, MOST_DIGITS);
        return whole_bits(whole.value as u32);
    }
    if first != b'#' {
        return 0;
    }
    let bits = digits_at(text, at + 1, Radix::Hexadecimal, BITS_DIGITS);
    if bits.count == BITS_DIGITS {
        bits.value
    } else {
        0
    }
}
