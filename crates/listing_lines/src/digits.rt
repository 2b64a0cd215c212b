// Numbers in ASCII digits.
ghost use Rattle.std.specs.Prelude.{◌≡◌, [], ◌∷◌, ◌++◌, ◌+◌, ◌≤◌, ◌<◌, drop};
ghost use Rattle.definitions.specs.Listing.{decimal, hex, hex_digit, line_feed, space};
ghost use Rattle.listing_lines.specs.Line.{line_bytes, most_digits, number_bytes, ExtendsLine, Holds, SpellsNumber};

use crate::line::{Line, new, with_bytes};

// A number of 64 bits has 20 decimal digits at most; a payload has 16 hex digits.
const MOST_DIGITS: usize = 20;

pub const HEX_DIGITS: usize = 16;

pub const DECIMAL_BASE: u64 = 10;

pub const HEX_BASE: u64 = 16;
// The bytes of the digit 0 and, less ten, of the digit A.
pub const ZERO: u8 = b'0';

pub const BEFORE_LETTERS: u8 = 55;

// Digits at the end of an array, from a place on.
#[derive(Clone, Copy)]
struct Digits {
    bytes: [u8; MOST_DIGITS],
    first: usize,
}

// A digit, decimal or capital hex.
fn digit(value: u64) -> u8
    requires { value < 16 }
    ensures { result ≡ hex_digit value }
{
    if value < DECIMAL_BASE {
        ZERO + value as u8
    } else {
        BEFORE_LETTERS + value as u8
    }
}

// The decimal digits of a number, as few as hold it. The loop runs from the last digit to the first: no counter that a `for` would take.
fn decimal_digits(n: u64) -> Digits
    ensures { SpellsNumber (decimal n) result }
{
    let mut bytes = [0; MOST_DIGITS];
    let mut first = MOST_DIGITS;
    let mut rest = n;
    while DECIMAL_BASE <= rest {
        first -= 1;
        bytes[first] = digit(rest % DECIMAL_BASE);
        rest = rest / DECIMAL_BASE;
    }
    first -= 1;
    bytes[first] = digit(rest);
    Digits { bytes, first }
}

// The 16 hex digits of a number.
fn hex_digits(n: u64) -> Digits
    ensures { SpellsNumber (hex n) result }
{
    let mut bytes = [0; MOST_DIGITS];
    let mut first = MOST_DIGITS;
    let mut rest = n;
    while MOST_DIGITS - HEX_DIGITS < first {
        first -= 1;
        bytes[first] = digit(rest % HEX_BASE);
        rest = rest / HEX_BASE;
    }
    Digits { bytes, first }
}

// The line with digits.
fn with_digits(line: Line, digits: Digits) -> Line
    requires { (line.length + most_digits ≤ line_bytes) × (digits.first ≤ most_digits) }
    ensures { ExtendsLine line (drop digits.first digits.bytes) most_digits result }
{
    let bytes = digits.bytes;
    let first = digits.first;
    with_bytes(line, &bytes[first..])
}

// The line with a number.
pub(crate) fn with_decimal(line: Line, n: u64) -> Line
    requires { line.length + most_digits ≤ line_bytes }
    ensures { ExtendsLine line (decimal n) most_digits result }
{
    with_digits(line, decimal_digits(n))
}

/// The line with a space and a number.
pub fn with_number(line: Line, n: u64) -> Line
    requires { line.length + number_bytes ≤ line_bytes }
    ensures { ExtendsLine line (space ∷ decimal n) number_bytes result }
{
    with_decimal(with_bytes(line, b" "), n)
}

// The line with a space and a payload.
pub(crate) fn with_payload(line: Line, n: u64) -> Line
    requires { line.length + number_bytes ≤ line_bytes }
    ensures { ExtendsLine line (space ∷ hex n) number_bytes result }
{
    with_digits(with_bytes(line, b" "), hex_digits(n))
}

/// A line that is one number in 16 capital hex digits.
pub fn hex_line(n: u64) -> Line
    ensures { Holds (hex n ++ (line_feed ∷ [])) result }
{
    with_bytes(with_digits(new(), hex_digits(n)), b"\n")
}
