// The readers: each reads one level of a text, counts what nests, and emits the words of its program.
ghost use Rattle.std.specs.Prelude.{◌≡◌};
ghost use Rattle.text_language.specs.Grammar.{chain, under, power, factor};
ghost use Rattle.text_language.specs.Reader.{which, is_some};
ghost use Rattle.text_program.specs.Readers.{ReaderStarts, Agrees, chain_of};

use crate::places::{atom_end, next_byte};
use crate::words::{NEGATE, RAISE, join_word};
use refusal::Refusal;
use text_bytes::{adds, multiplies};

// A level of a text that was read: the text goes on here, and the program has so many words.
#[derive(Clone, Copy)]
pub(crate) struct Parsed {
    pub next: usize,
    pub size: usize,
}

// What two operands are joined by: sums are products joined by + or -, products are powers joined by * or /.
#[derive(Clone, Copy, Debug, PartialEq, Eq)]
pub(crate) enum ChainKind {
    Sums,
    Products,
}

impl ChainKind {
    // Whether a byte is one of its signs.
    fn links(self, byte: u8) -> bool
        ensures { result ≡ is_some (which (chain_of self) byte) }
    {
        match self {
            ChainKind::Sums => adds(byte),
            ChainKind::Products => multiplies(byte),
        }
    }
}

// Operands that are joined by a chain's signs, and group left.
#[cycle(chain_factor_operand_power)]
pub(crate) fn chain(
    kind: ChainKind,
    text: &[u8],
    at: usize,
    left: usize,
    program: &mut [u16],
    size: usize,
) -> Result<Parsed, Refusal>
    requires { ReaderStarts text.now at program.old size }
    ensures { Agrees text.now at left (chain (chain_of kind)) program.old size program.new result }
{
    let mut read = operand(kind, text, at, left, program, size)?;
    loop {
        let sign = next_byte(text, read.next);
        if !kind.links(sign.byte) {
            return Ok(read);
        }
        let more = operand(kind, text, sign.at + 1, left, program, read.size)?;
        program[more.size] = join_word(sign.byte);
        read = Parsed {
            next: more.next,
            size: more.size + 1,
        };
    }
}

// An operand of a chain: of a sum a product, of a product a power.
#[cycle(chain_factor_operand_power)]
#[inline(always)]
pub(crate) fn operand(
    of: ChainKind,
    text: &[u8],
    at: usize,
    left: usize,
    program: &mut [u16],
    size: usize,
) -> Result<Parsed, Refusal>
    requires { ReaderStarts text.now at program.old size }
    ensures { Agrees text.now at left (under (chain_of of)) program.old size program.new result }
{
    match of {
        ChainKind::Sums => chain(ChainKind::Products, text, at, left, program, size),
        ChainKind::Products => power(text, at, left, program, size),
    }
}

// A factor with an optional ^ and power.
#[cycle(chain_factor_operand_power)]
pub(crate) fn power(
    text: &[u8],
    at: usize,
    left: usize,
    program: &mut [u16],
    size: usize,
) -> Result<Parsed, Refusal>
    requires { ReaderStarts text.now at program.old size }
    ensures { Agrees text.now at left power program.old size program.new result }
{
    let base = factor(text, at, left, program, size)?;
    let sign = next_byte(text, base.next);
    if sign.byte != b'^' {
        return Ok(base);
    }
    if left == 0 {
        return Err(Refusal::NestedTooDeep);
    }
    let exponent = power(text, sign.at + 1, left - 1, program, base.size)?;
    program[exponent.size] = RAISE;
    Ok(Parsed {
        next: exponent.next,
        size: exponent.size + 1,
    })
}

// A number, a name, a minus factor or a sum in brackets.
#[cycle(chain_factor_operand_power)]
pub(crate) fn factor(
    text: &[u8],
    at: usize,
    left: usize,
    program: &mut [u16],
    size: usize,
) -> Result<Parsed, Refusal>
    requires { ReaderStarts text.now at program.old size }
    ensures { Agrees text.now at left factor program.old size program.new result }
{
    let first = next_byte(text, at);
    if first.byte == b'-' {
        if left == 0 {
            return Err(Refusal::NestedTooDeep);
        }
        let inner = factor(text, first.at + 1, left - 1, program, size)?;
        program[inner.size] = NEGATE;
        return Ok(Parsed {
            next: inner.next,
            size: inner.size + 1,
        });
    }
    if first.byte == b'(' {
        if left == 0 {
            return Err(Refusal::NestedTooDeep);
        }
        let inner = chain(ChainKind::Sums, text, first.at + 1, left - 1, program, size)?;
        let close = next_byte(text, inner.next);
        if close.byte != b')' {
            return Err(Refusal::OutsideLanguage);
        }
        return Ok(Parsed {
            next: close.at + 1,
            size: inner.size,
        });
    }
    let Some(next) = atom_end(text, first.at) else {
        return Err(Refusal::OutsideLanguage);
    };
    program[size] = first.at as u16;
    Ok(Parsed {
        next,
        size: size + 1,
    })
}
