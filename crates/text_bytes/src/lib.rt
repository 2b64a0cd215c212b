// The bytes of a typed formula by their kinds.
#![tactic(auto)]

ghost use Rattle.std.specs.Prelude.{◌≡◌};
ghost use Rattle.text_language.specs.Grammar.{is_digit, is_letter, is_word, is_hex, hex_digit, sums, products};
ghost use Rattle.text_language.specs.Reader.{which, is_some};
ghost use Rattle.text_language.specs.Scan.{joins};

/// Whether a byte is a digit from 0 to 9.
pub fn is_digit(byte: u8) -> bool
    ensures { result ≡ is_digit byte }
{
    byte.is_ascii_digit()
}

/// Whether a byte is a letter from A to Z or from a to z.
pub fn is_letter(byte: u8) -> bool
    ensures { result ≡ is_letter byte }
{
    byte.is_ascii_alphabetic()
}

/// Whether a byte is a letter or a digit.
pub fn is_word(byte: u8) -> bool
    ensures { result ≡ is_word byte }
{
    byte.is_ascii_alphabetic() || byte.is_ascii_digit()
}

/// Whether a byte is a hex digit: 0 to 9, A to F or a to f.
pub fn is_hex(byte: u8) -> bool
    ensures { result ≡ is_hex byte }
{
    byte.is_ascii_digit() || matches!(byte, b'A'..=b'F' | b'a'..=b'f')
}

/// Whether a byte is + or -.
#[tactic(auto, unfolding(text_language::specs::Reader::which))]
pub fn adds(byte: u8) -> bool
    ensures { result ≡ is_some (which sums byte) }
{
    matches!(byte, b'+' | b'-')
}

/// Whether a byte is * or /.
#[tactic(auto, unfolding(text_language::specs::Reader::which))]
pub fn multiplies(byte: u8) -> bool
    ensures { result ≡ is_some (which products byte) }
{
    matches!(byte, b'*' | b'/')
}

/// Whether a byte is +, -, *, / or ^.
#[tactic(auto, unfolding(text_language::specs::Reader::which, text_language::specs::Scan::joins))]
pub fn joins(byte: u8) -> bool
    ensures { result ≡ joins byte }
{
    matches!(byte, b'+' | b'-' | b'*' | b'/' | b'^')
}

/// The value of a digit or a hex digit.
#[tactic(auto, unfolding(text_language::specs::Grammar::hex_digit))]
pub fn digit_value(digit: u8) -> u64
    ensures { result ≡ hex_digit digit }
{
    let value = match digit {
        0..=b'9' => digit.saturating_sub(b'0'),
        b':'..=b'F' => digit - (b'A' - 10),
        _ => digit.saturating_sub(b'a' - 10),
    };
    u64::from(value)
}
