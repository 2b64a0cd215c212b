// Words and line feeds, and a number behind a word.
ghost use Rattle.std.specs.Prelude.{◌∷◌, ◌++◌, ◌<◌, length};
ghost use Rattle.definitions.specs.Listing.{decimal, space, line_feed};
ghost use Rattle.listing_reader.specs.Numbers.{EndsDigits, Anything, ReadsNumber};
ghost use Rattle.listing_reader.specs.Words.{StartsWith};

use crate::number::{NumberRead, byte_at, spaced_decimal_at};

// Each line ends with this byte.
pub(crate) const LINE_FEED: u8 = b'\n';

// Whether a word stands at a place.
pub(crate) fn word_at(bytes: &[u8], at: usize, word: &[u8]) -> bool
    requires { 0 < length word.now }
    ensures { StartsWith bytes.now at word.now result }
{
    if bytes.len() < at {
        return false;
    }
    bytes[at..].starts_with(word)
}

// A word, a space and a number.
pub(crate) fn number_behind(bytes: &[u8], at: usize, word: &[u8]) -> Option<NumberRead>
    requires { 0 < length word.now }
    ensures { ReadsNumber (λ n rest. word.now ++ (space ∷ (decimal n ++ rest))) EndsDigits bytes.now at result }
{
    if !word_at(bytes, at, word) {
        return None;
    }
    spaced_decimal_at(bytes, at + word.len())
}

// A word, a space, a number and the line's end.
pub(crate) fn line_behind(bytes: &[u8], at: usize, word: &[u8]) -> Option<NumberRead>
    requires { 0 < length word.now }
    ensures { ReadsNumber (λ n rest. word.now ++ (space ∷ (decimal n ++ (line_feed ∷ rest)))) Anything bytes.now
        at result }
{
    let number = number_behind(bytes, at, word)?;
    if byte_at(bytes, number.next) != LINE_FEED {
        return None;
    }
    Some(NumberRead {
        value: number.value,
        next: number.next + 1,
    })
}
