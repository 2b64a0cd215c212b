// Reading an input into a lent array.
#![tactic(auto)]

ghost use Rattle.std.specs.Prelude.{◌≤◌, length, IfSome};
ghost use Rattle.std.specs.Io.{ReadsAtMost};

use std::io;
use std::io::Read;

/// Reads until the array is full or the input ends, and answers how many bytes it put at the array's start. A read that fails is no end of
/// the input: it is the answer.
pub fn fill<R: Read>(input: &mut R, array: &mut [u8]) -> io::Result<usize>
    ensures { ReadsAtMost result array.new }
{
    let mut done = 0;
    // `read_exact` is no plainer: it does not say how many bytes it read before the input ended.
    while done < array.len() {
        let count = input.read(&mut array[done..])?;
        if count == 0 {
            break;
        }
        done += count;
    }
    Ok(done)
}

// Whether the input ends here: a read answers 0 at its end alone.
fn at_end<R: Read>(input: &mut R) -> bool {
    matches!(input.read(&mut [0; 1]), Ok(0))
}

/// Reads the whole input, and answers how many bytes it put at the array's start; `None` where the input could not be read to its end. An
/// array that is full counts as a whole input, so it is one byte longer than the longest input that the caller takes.
pub fn read_whole<R: Read>(input: &mut R, array: &mut [u8]) -> Option<usize>
    ensures { IfSome result (λ count. count ≤ length array.new) }
{
    let count = fill(input, array).ok()?;
    if count == array.len() || at_end(input) {
        Some(count)
    } else {
        None
    }
}
