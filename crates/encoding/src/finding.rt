// The first call of a list of words.
ghost use Rattle.std.specs.Prelude.{};
ghost use Rattle.encoding.specs.Finding.{FindsCall};

use crate::codes::CallCode;
use crate::headers::Header;

/// A call as it stands in a list of words.
#[derive(Clone, Copy)]
pub struct NextCall<'a> {
    pub header: Header,
    pub operands: &'a [u32],
    /// The words behind the call.
    pub rest: &'a [u32],
}

/// The first call of the words; `None` where they begin with no whole call with a known code.
pub fn next_call(words: &[u32]) -> Option<NextCall>
    ensures { FindsCall words.now result }
{
    let [code, a, b, high, low, many, behind @ ..] = words else {
        return None;
    };
    let many = *many as usize;
    if behind.len() < many {
        return None;
    }
    let Ok(code) = CallCode::try_from(*code) else {
        return None;
    };
    let (operands, rest) = behind.split_at(many);
    Some(NextCall {
        header: Header {
            code,
            numbers: [*a, *b, *high, *low],
        },
        operands,
        rest,
    })
}
