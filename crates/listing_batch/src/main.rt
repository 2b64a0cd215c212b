// Lists many sheets in one run, for oracle/compare: each frame of standard input holds a sheet, and a frame with its listing is
// written to standard output. A frame is a length of 4 bytes, big-endian, then that many bytes. `oracle/vectors` writes the files `stdin`
// and `stdout`: listings of the independent checker, and of the Rust original where that covers the sheet.
#![tactic(auto)]

use listing_bytes::LISTING_BYTES;
use std::io;
use std::io::{ErrorKind, Read};

// The longest frame that is read. A sheet of over 16,384 bytes is refused whatever it holds.
const FRAME_BYTES: usize = 65_536;

// Reads a frame, and writes one with the listing of its sheet. An error is the end of the input, a frame that is too long, or what the
// input or the output failed with.
fn answer_frame<R: Read>(input: &mut R, out: &impl Print) -> io::Result<()> {
    let mut head = [0; 4];
    input.read_exact(&mut head)?;
    let length = u32::from_be_bytes(head) as usize;
    if FRAME_BYTES < length {
        return Err(io::Error::from(ErrorKind::InvalidData));
    }
    let mut sheet = [0; FRAME_BYTES];
    input.read_exact(&mut sheet[..length])?;
    let mut listing = [0; LISTING_BYTES];
    let listed = listing_bytes::list(&sheet[..length], &mut listing);
    out.write_all(&(listed as u32).to_be_bytes())?;
    out.write_all(&listing[..listed])
}

// Frames are answered until one cannot be. A proved loop ends, and nothing says that the input does: no run uses up this many turns.
fn main(rt: HostRuntime) {
    let mut input = rt.stdin();
    for _ in 0..u64::MAX {
        if answer_frame(&mut input, &rt).is_err() {
            break;
        }
    }
}
