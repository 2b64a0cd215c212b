// The name of a number.
ghost use Rattle.std.specs.Prelude.{◌≡◌, [], ◌∷◌};
ghost use Rattle.outputs.specs.NameCalls.{name_outputs};

use crate::leaving::ANSWERED;
use names::{NameBytes, NameReply};

// 01: "Names of 1 to 32 bytes".
pub const LONGEST_NAME: usize = 32;

// A name with its length, and that it is known.
pub fn leave_name(
    found: NameBytes,
    known: &mut u64,
    length: &mut usize,
    bytes: &mut [u8; LONGEST_NAME],
) -> u64
    ensures { result ∷ known.new ∷ length.new ∷ bytes.new ≡ name_outputs found.answer found.bytes
        known.old length.old bytes.old }
{
    let answer = found.answer;
    match answer {
        NameReply::Numbered(_) => ANSWERED,
        NameReply::Unknown => {
            *known = 0;
            ANSWERED
        }
        NameReply::Named(size) => {
            *known = 1;
            *length = size;
            let held = found.bytes;
            *bytes = held;
            ANSWERED
        }
        NameReply::Refused(refusal) => refusal,
    }
}
