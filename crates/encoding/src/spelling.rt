// The name or the text that operands spell: its bytes are the lowest bytes of the operands.
ghost use Rattle.std.specs.Prelude.{◌≡◌};
ghost use Rattle.encoding.specs.Encoding.{lowest_byte};
ghost use Rattle.encoding.specs.Spelling.{most_name_bytes, most_text_bytes, SpellsUpTo};

use text_language::MOST_BYTES;

/// The bytes of the longest name.
pub const LONGEST_NAME: usize = 32;

// One byte more than a name has, so that a longer one is refused.
const MOST_NAME_BYTES: usize = LONGEST_NAME + 1;

// One byte more than a text has at most, so that a longer one is refused.
const MOST_TEXT_BYTES: usize = MOST_BYTES + 1;

const BYTE_VALUES: u32 = 256;

/// The first bytes of a name or a text, at most `N`: those before `length` are spelled, and the others are 0.
#[derive(Clone, Copy)]
pub struct Spelled<const N: usize> {
    pub bytes: [u8; N],
    pub length: usize,
}

fn lowest_byte(word: u32) -> u8
    ensures { result ≡ lowest_byte word }
{
    (word % BYTE_VALUES) as u8
}

// The bytes that operands spell, as many as there is room for.
fn spell<const N: usize>(operands: &[u32]) -> Spelled<N>
    ensures { SpellsUpTo N operands.now result.bytes result.length }
{
    let mut bytes = [0u8; N];
    let length = operands.len().min(N);
    for i in 0..length {
        bytes[i] = lowest_byte(operands[i]);
    }
    Spelled { bytes, length }
}

/// The name that operands spell.
pub fn spell_name(operands: &[u32]) -> Spelled<MOST_NAME_BYTES>
    ensures { SpellsUpTo most_name_bytes operands.now result.bytes result.length }
{
    spell(operands)
}

/// The text that operands spell.
pub fn spell_text(operands: &[u32]) -> Spelled<MOST_TEXT_BYTES>
    ensures { SpellsUpTo most_text_bytes operands.now result.bytes result.length }
{
    spell(operands)
}
