// A prune's threshold, handed in as bits.
ghost use Rattle.std.specs.Prelude.{◌≡◌};
ghost use Rattle.definitions.specs.Threshold as T;
ghost use Rattle.settings.specs.Answers.{meaning};

use refusal::Refusal;
use text_language::BITS_OF_INFINITY;

// A threshold that is a NaN or has the sign bit set is refused. The largest one is infinity: every number above its bits has a NaN's bits
// or the sign bit.
pub(crate) fn given(bits: u64) -> Result<Option<u64>, Refusal>
    ensures { meaning result ≡ T.given bits }
{
    if bits <= BITS_OF_INFINITY {
        Ok(Some(bits))
    } else {
        Err(Refusal::BadThreshold)
    }
}
