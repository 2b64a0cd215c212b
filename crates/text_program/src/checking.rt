// The check of a text, all before any name or node is made: its length, the language, its depth, and the NaNs of its program.
ghost use Rattle.std.specs.Prelude.{◌≡◌, length};
ghost use Rattle.text_language.specs.Program.{token_at, tokens};
ghost use Rattle.text_language.specs.Reading.{nan_token, any_nan, most_bytes};
ghost use Rattle.text_program.specs.Compiling.{Compiles};

use crate::numbers::bits_at;
use crate::places::name_starts;
use crate::readers::{ChainKind, chain};
use crate::scanning::scan;
use crate::words::FIRST_OPERATOR;
use refusal::Refusal;
use text_language::{MOST_BYTES, MOST_NESTED, is_nan};

/// The size of a text's program, whose words stand at the start of `program`; or why the text has none.
pub fn compile(text: &[u8], program: &mut [u16]) -> Result<usize, Refusal>
    requires { length program.old ≡ most_bytes }
    ensures { Compiles text.now program.new result }
{
    if text.is_empty() || text.len() > MOST_BYTES {
        return Err(Refusal::BadInput);
    }
    if !scan(text) {
        return Err(Refusal::OutsideLanguage);
    }
    let whole = chain(ChainKind::Sums, text, 0, MOST_NESTED, program, 0)?;
    Ok(whole.size)
}

// Whether a word is a number's whose bits are a NaN.
fn nan_word(text: &[u8], word: u16) -> bool
    ensures { result ≡ nan_token (token_at text.now word) }
{
    if word >= FIRST_OPERATOR {
        return false;
    }
    let at = word as usize;
    if name_starts(text, at) {
        return false;
    }
    let bits = bits_at(text, at);
    is_nan(bits)
}

/// Whether a program has a number whose bits are a NaN.
pub fn any_nan(text: &[u8], program: &[u16]) -> bool
    ensures { result ≡ any_nan (tokens text.now program.now (length program.now)) }
{
    for word in program {
        if nan_word(text, *word) {
            return true;
        }
    }
    false
}
