// Numbers in ASCII digits, read at a place of the bytes.
ghost use Rattle.std.specs.Prelude.{◌≡◌, ◌∷◌, ◌++◌, ◌≤◌, ◌<◌, get_or};
ghost use Rattle.definitions.specs.Listing.{decimal, hex, space};
ghost use Rattle.listing_reader.specs.Numbers.{zero_digit, nine_digit, is_digit, EndsDigits, Anything, HexValue, ReadsNumber, AfterSpace};

use listing_lines::{BEFORE_LETTERS, DECIMAL_BASE, HEX_BASE, HEX_DIGITS, ZERO};

// The bytes of the space and of the digits 9, A and F.
const SPACE: u8 = b' ';

const NINE: u8 = b'9';

const LETTER_A: u8 = b'A';

const LETTER_F: u8 = b'F';

// The value of a byte that is no hex digit.
const NO_DIGIT: u64 = 16;

// A number, and the place after it.
#[derive(Clone, Copy)]
pub(crate) struct NumberRead {
    pub value: u64,
    pub next: usize,
}

// The byte at a place, 0 past the end.
pub(crate) fn byte_at(bytes: &[u8], at: usize) -> u8
    ensures { result ≡ get_or bytes.now at 0 }
{
    if at < bytes.len() { bytes[at] } else { 0 }
}

fn is_digit(byte: u8) -> bool
    ensures { result ≡ is_digit byte }
{
    ZERO <= byte && byte <= NINE
}

// A decimal number whose first digit is not 0.
fn digits_at(bytes: &[u8], at: usize) -> Option<NumberRead>
    requires { (zero_digit < get_or bytes.now at 0) × (get_or bytes.now at 0 ≤ nine_digit) }
    ensures { ReadsNumber (λ n rest. decimal n ++ rest) EndsDigits bytes.now at result }
{
    let mut value = u64::from(byte_at(bytes, at) - ZERO);
    let mut next = at + 1;
    while is_digit(byte_at(bytes, next)) {
        let digit = u64::from(byte_at(bytes, next) - ZERO);
        if (u64::MAX - digit) / DECIMAL_BASE < value {
            return None;
        }
        value = value * DECIMAL_BASE + digit;
        next += 1;
    }
    Some(NumberRead { value, next })
}

// A decimal number in fewest digits.
pub(crate) fn decimal_at(bytes: &[u8], at: usize) -> Option<NumberRead>
    ensures { ReadsNumber (λ n rest. decimal n ++ rest) EndsDigits bytes.now at result }
{
    let first = byte_at(bytes, at);
    if !is_digit(first) {
        return None;
    }
    if first != ZERO {
        return digits_at(bytes, at);
    }
    if is_digit(byte_at(bytes, at + 1)) {
        return None;
    }
    Some(NumberRead {
        value: 0,
        next: at + 1,
    })
}

// The value of a capital hex digit.
fn hex_value(byte: u8) -> u64
    ensures { HexValue byte result }
{
    if is_digit(byte) {
        return u64::from(byte - ZERO);
    }
    if byte < LETTER_A {
        return NO_DIGIT;
    }
    if LETTER_F < byte {
        return NO_DIGIT;
    }
    u64::from(byte - BEFORE_LETTERS)
}

// A number in 16 capital hex digits.
fn hex_at(bytes: &[u8], at: usize) -> Option<NumberRead>
    ensures { ReadsNumber (λ n rest. hex n ++ rest) Anything bytes.now at result }
{
    let mut value: u64 = 0;
    let mut next = at;
    for read in 0..HEX_DIGITS {
        let digit = hex_value(byte_at(bytes, next));
        if digit == NO_DIGIT {
            return None;
        }
        value = value * HEX_BASE + digit;
        next += 1;
    }
    Some(NumberRead { value, next })
}

// The place after a space.
fn after_space(bytes: &[u8], at: usize) -> Option<usize>
    ensures { AfterSpace bytes.now at result }
{
    if byte_at(bytes, at) != SPACE {
        return None;
    }
    Some(at + 1)
}

// A space and a decimal number.
pub(crate) fn spaced_decimal_at(bytes: &[u8], at: usize) -> Option<NumberRead>
    ensures { ReadsNumber (λ n rest. space ∷ (decimal n ++ rest)) EndsDigits bytes.now at result }
{
    let number = after_space(bytes, at)?;
    decimal_at(bytes, number)
}

// A space and a payload.
pub(crate) fn spaced_hex_at(bytes: &[u8], at: usize) -> Option<NumberRead>
    ensures { ReadsNumber (λ n rest. space ∷ (hex n ++ rest)) Anything bytes.now at result }
{
    let number = after_space(bytes, at)?;
    hex_at(bytes, number)
}
