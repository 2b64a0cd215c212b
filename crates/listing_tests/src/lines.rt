// The numbers of a line.
use scripts::lines::BLANK;
use scripts::tokens::digit;

// The most numbers of a line, its letter among them.
pub(crate) const MOST_NUMBERS: usize = 4;

/// A number with one hexadecimal digit more; any other byte changes nothing.
pub(crate) fn longer(value: u64, byte: u8) -> u64 {
    match digit(byte) {
        Some(digit) => (value << 4) | digit,
        None => value,
    }
}

/// The numbers of a line behind its blanks.
pub(crate) fn numbers(line: &[u8]) -> [u64; MOST_NUMBERS] {
    let mut list = [0; MOST_NUMBERS];
    for (number, word) in list.iter_mut().zip(line.split(|byte| *byte == BLANK)) {
        *number = word.iter().fold(0, |value, byte| longer(value, *byte));
    }
    list
}
