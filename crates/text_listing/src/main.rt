// Reads a formula typed as text from standard input and prints its listing and its names; of a text that is refused also a line in words. A
// line feed at the end of the input is no part of the text. A text that could not be read to its end is not listed, since the part that was
// read could be a formula too.
#![tactic(auto)]

use std::io;
use store::NodeAnswer;
use text_language::{BAD_TEXT, MOST_BYTES, NESTED_TOO_DEEP, NOT_A_NUMBER, OUTSIDE_LANGUAGE};

// Two bytes more than the longest text: one for a line feed at the end, one so that a longer text is refused too.
const INPUT_BYTES: usize = MOST_BYTES + 2;

// What a refusal means, for the one who typed the text.
fn words_of(number: u64) -> &'static str {
    match number {
        BAD_TEXT => "The text is empty, or longer than 8,192 bytes.",
        OUTSIDE_LANGUAGE => {
            "This is no formula: look at the byte at that place, counted from 0. At the end of the text, something is missing there."
        }
        NESTED_TOO_DEEP => {
            "Brackets, minus signs and powers stand over 64 deep inside one another."
        }
        NOT_A_NUMBER => "The 16 digits after a # are those of no number.",
        _ => {
            "The formula has too many parts or too many names for this program; the listing shows those made before."
        }
    }
}

fn print_listing(out: &impl Print, text: &[u8]) -> io::Result<()> {
    let listing = text_listing_bytes::list(text);
    let bytes = listing.bytes;
    let length = listing.length;
    out.write_all(&bytes[..length])?;
    match listing.answer {
        NodeAnswer::Id(_) => Ok(()),
        NodeAnswer::Refused(number) => println!(out; "{}", words_of(number)),
    }
}

fn main(rt: HostRuntime) {
    let mut input = [0; INPUT_BYTES];
    let Some(length) = whole_input::read_whole(&mut rt.stdin(), &mut input) else {
        let _ = eprintln!(rt; "text_listing: the text could not be read to its end");
        return;
    };
    let typed = &input[..length];
    let text = typed.strip_suffix(b"\n").unwrap_or(typed);
    if print_listing(&rt, text).is_err() {
        let _ = eprintln!(rt; "text_listing: the listing could not be written");
    }
}
