// Where the parts of a text stand.
ghost use Rattle.std.specs.Prelude.{◌≡◌, ◌+◌, ◌≤◌, ◌<◌, ℕ, Bool, length, get_or};
ghost use Rattle.text_language.specs.Grammar.{is_letter, is_word};
ghost use Rattle.text_language.specs.Places.{AtSpot, ScanRan};
ghost use Rattle.text_program.specs.Readers.{AtomEnds, Decides, later_name_bytes};

use text_bytes::{is_digit, is_hex, is_letter, is_word};

// A number has 1 to 9 digits, so that 8 may follow the first.
const LATER_DIGITS: usize = 8;

// A name has at most 32 bytes, so that 31 may follow its letter.
const LATER_NAME_BYTES: usize = 31;

// A constant's bits have 16 hex digits.
pub(crate) const BITS_DIGITS: usize = 16;

// The first byte that is no blank, 0 at the end, and its place.
#[derive(Clone, Copy)]
pub(crate) struct NextByte {
    pub at: usize,
    pub byte: u8,
}

pub(crate) fn next_byte(text: &[u8], from: usize) -> NextByte
    requires { from ≤ length text.now }
    ensures { AtSpot text.now from result.at result.byte }
{
    for at in from..text.len() {
        let byte = text[at];
        if byte != b' ' {
            return NextByte { at, byte };
        }
    }
    NextByte {
        at: text.len(),
        byte: 0,
    }
}

// The end of as many bytes that pass a test as there are from a place on, at most so many.
pub(crate) fn run_end<F: Fn(u8) -> bool>(text: &[u8], from: usize, passes: F, most: usize) -> usize
    requires inside { from ≤ length text.now }
    requires callable { F.IsAlwaysCallable passes }
    ensures { (p : ℕ → Bool) → Decides (F.post passes) p → ScanRan text.now from p most result }
{
    for passed in 0..most {
        let at = from + passed;
        if at >= text.len() || !passes(text[at]) {
            return at;
        }
    }
    from + most
}

// The end of the number or name that starts at a place, if there is one.
pub(crate) fn atom_end(text: &[u8], at: usize) -> Option<usize>
    requires { at ≤ length text.now }
    ensures { AtomEnds text.now at result }
{
    if at >= text.len() {
        return None;
    }
    let first = text[at];
    if is_digit(first) {
        return Some(run_end(text, at + 1, is_digit, LATER_DIGITS));
    }
    if is_letter(first) {
        return Some(name_end(text, at));
    }
    if first != b'#' {
        return None;
    }
    let end = run_end(text, at + 1, is_hex, BITS_DIGITS);
    if end - (at + 1) == BITS_DIGITS {
        Some(end)
    } else {
        None
    }
}

/// Whether a letter stands at a place.
pub fn name_starts(text: &[u8], at: usize) -> bool
    ensures { result ≡ is_letter (get_or text.now at 0) }
{
    at < text.len() && is_letter(text[at])
}

/// The end of the name that starts at a place.
pub fn name_end(text: &[u8], at: usize) -> usize
    requires { at < length text.now }
    ensures { ScanRan text.now (at + 1) is_word later_name_bytes result }
{
    run_end(text, at + 1, is_word, LATER_NAME_BYTES)
}
