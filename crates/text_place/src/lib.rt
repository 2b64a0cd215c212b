// Where a text that is no formula goes wrong: it is read byte by byte up to the first byte that no text of the language has there.
#![tactic(auto)]

ghost use Rattle.std.specs.Prelude.{◌≡◌, ◌<◌};
ghost use Rattle.text_place.specs.Progress.{open_in, operand_byte, byte_after, longer, bits_byte, advance};
ghost use Rattle.text_place.specs.Stopping.{StopsAt};

use text_bytes::{is_digit, is_hex, is_letter, is_word, joins};

// A number has 1 to 9 digits, a name at most 32 bytes, a constant's bits 16 hex digits.
const MOST_DIGITS: usize = 9;

const LONGEST_NAME: usize = 32;

const BITS_DIGITS: usize = 16;

const BLANK: u8 = b' ';

const MINUS: u8 = b'-';

const OPEN: u8 = b'(';

const CLOSE: u8 = b')';

const HASH: u8 = b'#';

// How far a text is read: an operand is wanted; so many digits of a whole number, bytes of a name or hex digits after # stand; or an
// operand has ended. Beside it how many brackets are open.
#[derive(Clone, Copy, Debug, PartialEq, Eq)]
pub enum ScanProgress {
    Wanted(usize),
    Digits { length: usize, brackets: usize },
    Name { length: usize, brackets: usize },
    Bits { length: usize, brackets: usize },
    Ended(usize),
}

// The progress after the byte where an operand is wanted, or none if no text has the byte there.
fn operand_byte(brackets: usize, byte: u8) -> Option<ScanProgress>
    requires { brackets < 18446744073709551615 }
    ensures { result ≡ operand_byte brackets byte }
{
    if byte == BLANK {
        return Some(ScanProgress::Wanted(brackets));
    }
    if byte == MINUS {
        return Some(ScanProgress::Wanted(brackets));
    }
    if byte == OPEN {
        return Some(ScanProgress::Wanted(brackets + 1));
    }
    if is_digit(byte) {
        return Some(ScanProgress::Digits {
            length: 1,
            brackets,
        });
    }
    if is_letter(byte) {
        return Some(ScanProgress::Name {
            length: 1,
            brackets,
        });
    }
    if byte == HASH {
        return Some(ScanProgress::Bits {
            length: 0,
            brackets,
        });
    }
    None
}

// The same after an operand.
fn byte_after(brackets: usize, byte: u8) -> Option<ScanProgress>
    ensures { result ≡ byte_after brackets byte }
{
    if byte == BLANK {
        return Some(ScanProgress::Ended(brackets));
    }
    if joins(byte) {
        return Some(ScanProgress::Wanted(brackets));
    }
    if byte != CLOSE {
        return None;
    }
    if brackets == 0 {
        return None;
    }
    Some(ScanProgress::Ended(brackets - 1))
}

// Whether a number or a name has one byte more.
fn longer(passes: bool, length: usize, most: usize) -> bool
    ensures { result ≡ longer passes length most }
{
    passes && length < most
}

// The same after so many hex digits.
fn bits_byte(length: usize, brackets: usize, byte: u8) -> Option<ScanProgress>
    ensures { result ≡ bits_byte length brackets byte }
{
    if length >= BITS_DIGITS {
        return byte_after(brackets, byte);
    }
    if is_hex(byte) {
        return Some(ScanProgress::Bits {
            length: length + 1,
            brackets,
        });
    }
    None
}

// The progress after one byte more, or none if no text has the byte there.
fn advance(progress: ScanProgress, byte: u8) -> Option<ScanProgress>
    requires { open_in progress < 18446744073709551615 }
    ensures { result ≡ advance progress byte }
{
    match progress {
        ScanProgress::Wanted(brackets) => operand_byte(brackets, byte),
        ScanProgress::Digits { length, brackets } => {
            if longer(is_digit(byte), length, MOST_DIGITS) {
                return Some(ScanProgress::Digits {
                    length: length + 1,
                    brackets,
                });
            }
            byte_after(brackets, byte)
        }
        ScanProgress::Name { length, brackets } => {
            if longer(is_word(byte), length, LONGEST_NAME) {
                return Some(ScanProgress::Name {
                    length: length + 1,
                    brackets,
                });
            }
            byte_after(brackets, byte)
        }
        ScanProgress::Bits { length, brackets } => bits_byte(length, brackets, byte),
        ScanProgress::Ended(brackets) => byte_after(brackets, byte),
    }
}

/// The place of the first byte with which no text of the language goes on, or the length of the text if more is wanted or nothing is wrong.
pub fn stops_at(text: &[u8]) -> usize
    ensures { StopsAt text.now result }
{
    let mut progress = ScanProgress::Wanted(0);
    for i in 0..text.len() {
        match advance(progress, text[i]) {
            Some(further) => progress = further,
            None => return i,
        }
    }
    text.len()
}
