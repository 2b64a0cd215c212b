// Constants: whole ones from 0 to 999,999,999 in fewest digits, others as # and 16 hex digits.
ghost use Rattle.std.specs.Prelude.{◌≡◌, ◌<◌, ◌≤◌, ◌∷◌, ◌++◌, drop};
ghost use Rattle.expression_text.specs.Numeral.{most_whole, most_digits, hex_digits, number_sign, numeral, decimals, hexes, hex_byte};
ghost use Rattle.expression_text.specs.Proper.{number_bits};
ghost use Rattle.writer.specs.Placing.{spare, IsWhole, Open, PutsBytes};

use crate::placing::SPACE;
use expression_text::{MOST_WHOLE, NUMBER_SIGN};
use text_language::is_nan;

// A constant's bits have 16 hex digits.
const BITS_DIGITS: usize = 16;

// A digit, decimal or capital hex.
fn digit(value: u64) -> u8
    requires { value < 16 }
    ensures { result ≡ hex_byte value }
{
    if value <= 9 {
        48 + value as u8
    } else {
        55 + value as u8
    }
}

// A whole number in fewest digits, in front.
fn put_decimal(out: &mut [u8; SPACE], at: usize, n: u64) -> usize
    requires { Open out.old at × (n ≤ most_whole) }
    ensures { PutsBytes (decimals most_digits n (drop at out.old)) spare at result out.new }
{
    let mut place = at;
    let mut rest = n;
    loop {
        place -= 1;
        out[place] = digit(rest % 10);
        rest /= 10;
        if rest == 0 {
            return place;
        }
    }
}

// # and 16 hex digits, in front.
fn put_hex(out: &mut [u8; SPACE], at: usize, bits: u64) -> usize
    requires { Open out.old at }
    ensures { PutsBytes (number_sign ∷ hexes hex_digits bits (drop at out.old)) spare at result out.new }
{
    let mut place = at;
    let mut rest = bits;
    for _written in 0..BITS_DIGITS {
        place -= 1;
        out[place] = digit(rest % 16);
        rest /= 16;
    }
    place -= 1;
    out[place] = NUMBER_SIGN;
    place
}

// Whether bits are a number's: those of a NaN are not.
pub(crate) fn is_number(bits: u64) -> bool
    ensures { result ≡ number_bits bits }
{
    !is_nan(bits)
}

// The whole number from 0 to 999,999,999 that bits are of, if they are of one.
fn whole(bits: u64) -> Option<u64>
    ensures { IsWhole bits result }
{
    if !is_number(bits) {
        return None;
    }
    let x = f64::from_bits(bits);
    if x > -1.0 {
        if x < 18446744073709551616.0 {
            let n = std::num::truncating_f64_to_u64(x);
            if n <= MOST_WHOLE {
                let y = std::num::nearest_u64_to_f64(n);
                if f64::to_bits(y) == bits {
                    return Some(n);
                }
                return None;
            }
            return None;
        }
        return None;
    }
    None
}

// A constant in front.
pub(crate) fn put_number(out: &mut [u8; SPACE], at: usize, bits: u64) -> usize
    requires { Open out.old at }
    ensures { PutsBytes (numeral bits ++ drop at out.old) spare at result out.new }
{
    match whole(bits) {
        Some(n) => put_decimal(out, at, n),
        None => put_hex(out, at, bits),
    }
}
