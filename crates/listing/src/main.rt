// Reads a sheet from standard input and prints the listing of its result. A sheet that could not be read to its end is not listed, since
// the part that was read could be a sheet too.
#![tactic(auto)]

use listing_bytes::LISTING_BYTES;
use records::MOST_SHEET_BYTES;
use std::io;

// One byte more than the longest sheet, so that a longer one is refused too.
const INPUT_BYTES: usize = MOST_SHEET_BYTES + 1;

fn print_listing(out: &impl Print, sheet: &[u8]) -> io::Result<()> {
    let mut bytes = [0; LISTING_BYTES];
    let length = listing_bytes::list(sheet, &mut bytes);
    out.write_all(&bytes[..length])
}

fn main(rt: HostRuntime) {
    let mut input = [0; INPUT_BYTES];
    let Some(length) = whole_input::read_whole(&mut rt.stdin(), &mut input) else {
        let _ = eprintln!(rt; "listing: the sheet could not be read to its end");
        return;
    };
    if print_listing(&rt, &input[..length]).is_err() {
        let _ = eprintln!(rt; "listing: the listing could not be written");
    }
}
