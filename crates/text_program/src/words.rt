// The words of a program: a number or a name by its place in the text, an operator by its kind's code.
ghost use Rattle.std.specs.Prelude.{◌≡◌, List, ℕ};
ghost use Rattle.text_language.specs.Program.{token_at, operands};
ghost use Rattle.text_program.specs.Words.{join_word};

/// A word below this is the place of a number or a name; an operator's word is this and the code of its kind.
pub const FIRST_OPERATOR: u16 = 8192;

const PLUS: u16 = FIRST_OPERATOR + 2;

const MINUS: u16 = FIRST_OPERATOR + 3;

const TIMES: u16 = FIRST_OPERATOR + 4;

const OVER: u16 = FIRST_OPERATOR + 5;

pub(crate) const RAISE: u16 = FIRST_OPERATOR + 6;

pub(crate) const NEGATE: u16 = FIRST_OPERATOR + 8;

// The word of a sign between two operands.
pub(crate) fn join_word(byte: u8) -> u16
    ensures { result ≡ join_word byte }
{
    match byte {
        b'+' => PLUS,
        b'-' => MINUS,
        b'*' => TIMES,
        b'/' => OVER,
        _ => RAISE,
    }
}

/// How many results a word's token takes.
pub fn operand_count(word: u16) -> usize
    ensures { (text : List ℕ) → result ≡ operands (token_at text word) }
{
    if word < FIRST_OPERATOR {
        return 0;
    }
    match word {
        PLUS..=RAISE => 2,
        _ => 1,
    }
}
