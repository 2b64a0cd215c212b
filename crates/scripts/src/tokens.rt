// Numbers as scripts spell them: decimal, or hexadecimal behind an `x`. `5+3` is 5 at first and 3 more at every turn of a repeat; `5+3%64`
// is that modulo 64.
ghost use Rattle.std.specs.Prelude.{◌<◌, IfSome};

// The greatest number that a digit may follow.
const MOST_BEFORE: u64 = 0x0fff_ffff_ffff_ffff;

// What stood before the digits that are read.
#[derive(Clone, Copy)]
enum Signs {
    // No sign.
    Plain,
    // A start and a `+`; the digits are the step.
    Plus { start: u64 },
    // These and a `%`; the digits are the modulus.
    Percent { start: u64, step: u64 },
}

// A number as far as it was read.
#[derive(Clone, Copy)]
struct Token {
    signs: Signs,
    is_hex: bool,
    // The digits since the last sign.
    value: u64,
}

/// The lowest 32 bits.
pub fn narrow(number: u64) -> u32 {
    (number & 0xffff_ffff) as u32
}

/// The lowest 8 bits.
pub fn low_byte(number: u64) -> u8 {
    (number & 0xff) as u8
}

/// The highest 32 bits.
pub fn high(number: u64) -> u32 {
    (number >> 32) as u32
}

/// What a digit of 0 to 9 or a to f stands for.
pub fn digit(byte: u8) -> Option<u64>
    ensures { IfSome result (λ value. value < 16) }
{
    match byte {
        b'0'..=b'9' => Some(u64::from(byte - b'0')),
        b'a'..=b'f' => Some(u64::from(byte - b'a') + 10),
        _ => None,
    }
}

// A start and so many steps more.
fn moved(start: u64, step: u64, turn: u32) -> u64 {
    let steps = u64::from(narrow(step)).wrapping_mul(u64::from(turn));
    start.wrapping_add(steps)
}

impl Token {
    fn new() -> Token {
        Token {
            signs: Signs::Plain,
            is_hex: false,
            value: 0,
        }
    }

    fn start(self) -> u64 {
        match self.signs {
            Signs::Plain => 0,
            Signs::Plus { start } => start,
            Signs::Percent { start, step: _ } => start,
        }
    }

    // The digits with one more. A number that is too great stays as it is.
    fn longer(self, digit: u64) -> u64
        requires { digit < 16 }
    {
        if MOST_BEFORE < self.value {
            self.value
        } else if self.is_hex {
            self.value * 16 + digit
        } else {
            self.value * 10 + digit
        }
    }

    // A byte that is neither a sign nor a digit changes nothing.
    fn with(self, byte: u8) -> Token {
        match byte {
            b'x' => Token {
                value: 0,
                is_hex: true,
                ..self
            },
            b'+' => Token {
                signs: Signs::Plus { start: self.value },
                is_hex: false,
                value: 0,
            },
            b'%' => Token {
                signs: Signs::Percent {
                    start: self.start(),
                    step: self.value,
                },
                is_hex: false,
                value: 0,
            },
            _ => match digit(byte) {
                Some(digit) => Token {
                    value: self.longer(digit),
                    ..self
                },
                None => self,
            },
        }
    }

    // What it is at a turn.
    fn at_turn(self, turn: u32) -> u64 {
        match self.signs {
            Signs::Plain => self.value,
            Signs::Plus { start } => moved(start, self.value, turn),
            Signs::Percent { start, step } => moved(start, step, turn)
                .checked_rem(self.value)
                .unwrap_or(0),
        }
    }
}

/// The number that a word spells, at a turn.
pub fn number(word: &[u8], turn: u32) -> u64 {
    let mut token = Token::new();
    for byte in word {
        token = token.with(*byte);
    }
    token.at_turn(turn)
}
