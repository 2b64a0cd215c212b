// The command of a line, and what stands behind it.
ghost use Rattle.std.specs.Prelude.{◌≤◌};

use crate::tokens;
use encoding::codes::CallCode;
use std::str;
use std::str::FromStr;

pub const BLANK: u8 = b' ';

// The words of the calls, by their codes.
const CALLS: [&str; 23] = [
    "variable",
    "constant",
    "add",
    "sub",
    "mul",
    "div",
    "pow",
    "modulo",
    "neg",
    "operator",
    "function",
    "select",
    "if_else",
    "for_loop",
    "control",
    "simplify",
    "prune",
    "prune_by_setting",
    "simplify_strictly",
    "intern",
    "lookup",
    "name_of",
    "read",
];

/// What a line asks for; docs/ARCHITECTURE.md has the commands.
#[derive(Clone, Copy)]
pub enum Command {
    Call(CallCode),
    Repeat,
    Fresh,
    Apply,
    Replay,
    Lend,
    Counts,
    List,
    SetWord,
    SetSlot,
    SetByte,
    Fill,
    Rehash,
    Refill,
    Word,
    Slot,
    Write,
}

/// A word that is no command.
#[derive(Clone, Copy, Debug)]
pub struct NoSuchCommand;

impl FromStr for Command {
    type Err = NoSuchCommand;

    fn from_str(word: &str) -> Result<Command, NoSuchCommand> {
        if let Some(code) = CALLS.iter().position(|call| *call == word) {
            return match CallCode::try_from(code as u32) {
                Ok(call) => Ok(Command::Call(call)),
                Err(_) => Err(NoSuchCommand),
            };
        }
        match word {
            "repeat" => Ok(Command::Repeat),
            "fresh" => Ok(Command::Fresh),
            "apply" => Ok(Command::Apply),
            "replay" => Ok(Command::Replay),
            "lend" => Ok(Command::Lend),
            "counts" => Ok(Command::Counts),
            "list" => Ok(Command::List),
            "set_word" => Ok(Command::SetWord),
            "set_slot" => Ok(Command::SetSlot),
            "set_byte" => Ok(Command::SetByte),
            "fill" => Ok(Command::Fill),
            "rehash" => Ok(Command::Rehash),
            "refill" => Ok(Command::Refill),
            "word" => Ok(Command::Word),
            "slot" => Ok(Command::Slot),
            "write" => Ok(Command::Write),
            _ => Err(NoSuchCommand),
        }
    }
}

impl Command {
    /// The command of a line, which begins with a blank.
    pub fn of_line(line: &[u8]) -> Result<Command, NoSuchCommand> {
        let word = line.split(|byte| *byte == BLANK).nth(1).unwrap_or(b"");
        match str::from_utf8(word) {
            Ok(word) => word.parse(),
            Err(_) => Err(NoSuchCommand),
        }
    }
}

// The numbers of a line at most, or the bytes of a text: one more than a text may have, and what stands before it.
pub const MOST_VALUES: usize = 8_194;

/// A line's numbers, or the bytes of its text, from 1 on: what has place 0 is no number.
#[derive(Drop)]
pub struct Values {
    pub list: [u64; MOST_VALUES],
    pub count: usize,
    ghost within: { count ≤ 8194 },
}

/// The numbers of a line behind its command, as they are at a turn.
pub fn numbers(line: &[u8], turn: u32) -> Values {
    let mut list = [0; MOST_VALUES];
    let mut count: usize = 0;
    let words = line.split(|byte| *byte == BLANK).skip(1);
    for (number, word) in list.iter_mut().zip(words) {
        *number = tokens::number(word, turn);
        count = count.saturating_add(1);
    }
    Values {
        list,
        count: count.min(MOST_VALUES),
    }
}

/// The bytes of a line from its second blank on.
pub fn bytes(line: &[u8]) -> Values {
    let mut list = [0; MOST_VALUES];
    let rest = if line.is_empty() { line } else { &line[1..] };
    let command = rest
        .iter()
        .take_while(|byte| **byte != BLANK)
        .count()
        .min(rest.len());
    let behind_command = &rest[command..];
    for (value, byte) in list.iter_mut().zip(behind_command) {
        *value = u64::from(*byte);
    }
    Values {
        list,
        count: behind_command.len().min(MOST_VALUES),
    }
}
