// A formula typed as text, read into a fresh store and an empty name list: its listing as bytes, the lines of the nodes and after them a line a
// name.
#![tactic(auto)]

mod naming;
mod reading;

ghost use Rattle.std.specs.Prelude.{◌≤◌};
ghost use Rattle.arena.specs.Nodes.{Nodes};
ghost use Rattle.name_entries.specs.Sound.{SoundNames};
ghost use Rattle.text_listing_bytes.specs.Listed.{text_lent, Lines, ListedText};

use arena::NODE_WORDS;
use listing_lines::{LINE_BYTES, all_lines};
use naming::put_names;
use reading::{outcome_of, place_of, read_fresh};
use store::NodeAnswer;

// A fresh store of 512 nodes and 1,024 slots, as the listing program has it, and an empty list of 128 names.
const NODES: usize = 512;

const SLOTS: usize = 1_024;

const NAMES: usize = 128;

// A name list's entry: a length byte, then 32 bytes.
const ENTRY_BYTES: usize = 33;

/// Room for the first line, the line of each node and that of each name.
pub const TEXT_LISTING_BYTES: usize = (NODES + NAMES + 1) * LINE_BYTES;

/// A listing at the start of an array, whose other bytes are 0; the reading's answer, and the place where the text leaves the language.
#[derive(Drop)]
pub struct TextListing {
    pub bytes: [u8; TEXT_LISTING_BYTES],
    pub length: usize,
    pub answer: NodeAnswer,
    pub place: usize,
}

// The lines of an answer, of nodes and of names.
fn lines(
    answer: NodeAnswer,
    place: usize,
    nodes: &[u64],
    count: u64,
    entries: &[u8],
    names: usize,
) -> TextListing
    requires { Nodes nodes.now count × SoundNames entries.now names × (count ≤ text_lent.store.nodes) × (names ≤ text_lent.names) }
    ensures { Lines answer place nodes.now count entries.now names result }
{
    let mut bytes = [0; TEXT_LISTING_BYTES];
    let nodes_end = all_lines(outcome_of(answer, place), nodes, count, &mut bytes);
    let length = put_names(entries, names, &mut bytes, nodes_end);
    TextListing {
        bytes,
        length,
        answer,
        place,
    }
}

/// The listing of a text.
pub fn list(text: &[u8]) -> TextListing
    ensures { ListedText text.now result }
{
    let mut nodes = [0u64; NODES * NODE_WORDS];
    let mut slots = [0u32; SLOTS];
    let mut entries = [0u8; NAMES * ENTRY_BYTES];
    let made = read_fresh(text, &mut nodes, &mut slots, &mut entries);
    let place = place_of(text, made.answer);
    lines(
        made.answer,
        place,
        &nodes,
        made.arena.count,
        &entries,
        made.names,
    )
}
