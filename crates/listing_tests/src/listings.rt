// What a listing is read back to.
use crate::nodes::print_outcome;
use arena::{CHILDREN, COEFFICIENT, HASH, NODE_WORDS};
use listing_reader::ListingAnswer;

// Of a listing that a line spells so many bytes are read; what is longer is cut.
const MOST_BYTES: usize = 512;

// What stands in a line for a line feed.
const LINE_FEED_SIGN: u8 = b'/';

// Four nodes are read at most.
const MOST_WORDS: usize = 4 * NODE_WORDS;

// The place after the first four children, and that of the last.
const AFTER_FIRST_CHILDREN: usize = CHILDREN + 4;

const LAST_CHILD: usize = NODE_WORDS - 1;

// Whether a word of a node is printed: its kind, payload and flags, the number of children, the first four and the last.
fn is_shown(place: usize) -> bool {
    match place {
        HASH | COEFFICIENT => false,
        LAST_CHILD => true,
        _ => place < AFTER_FIRST_CHILDREN,
    }
}

fn print_node(out: &impl Print, node: &[u64]) {
    let _ = print!(out; " ");
    for (place, word) in node.iter().enumerate() {
        if is_shown(place) {
            let _ = print!(out; " {word}");
        }
    }
    let _ = println!(out);
}

fn byte_of(sign: u8) -> u8 {
    if sign == LINE_FEED_SIGN { b'\n' } else { sign }
}

/// The listing that a line spells, read into words that all were 7.
pub(crate) fn show(out: &impl Print, line: &[u8]) {
    let mut bytes = [0; MOST_BYTES];
    for (byte, sign) in bytes.iter_mut().zip(line) {
        *byte = byte_of(*sign);
    }
    let mut nodes = [7; MOST_WORDS];
    let listing = &bytes[..line.len().min(MOST_BYTES)];
    match listing_reader::read(listing, &mut nodes) {
        ListingAnswer::Read { outcome, count } => {
            print_outcome(out, outcome);
            let _ = println!(out; ", nodes {count}");
            for node in nodes.chunks_exact(NODE_WORDS) {
                print_node(out, node);
            }
        }
        ListingAnswer::Refused(line) => {
            let _ = println!(out; "line {line}");
        }
        ListingAnswer::Full => {
            let _ = println!(out; "full");
        }
    }
}
