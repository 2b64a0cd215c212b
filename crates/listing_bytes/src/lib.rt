// The listing of a sheet on the store that the listing program has, as bytes.
#![tactic(auto)]

ghost use Rattle.listing_bytes.specs.Listed.{Listed};

use arena::{DagArena, NODE_WORDS};
use listing_lines::{LINE_BYTES, all_lines};
use sheet::run_fresh;

// A fresh store of 512 nodes and 1,024 slots.
const NODES: usize = 512;

const SLOTS: usize = 1_024;

const WORDS: usize = NODES * NODE_WORDS;

/// Room for the first line and the line of each node.
pub const LISTING_BYTES: usize = (NODES + 1) * LINE_BYTES;

/// The listing of a sheet, at the start of an array whose other bytes stay; its length.
pub fn list(sheet: &[u8], listing: &mut [u8; LISTING_BYTES]) -> usize
    ensures { Listed sheet.now listing.old result listing.new }
{
    let mut nodes = [0; WORDS];
    let mut slots = [0; SLOTS];
    let none = DagArena { count: 0, size: 0 };
    let ran = run_fresh(sheet, &mut nodes, &mut slots, none);
    all_lines(ran.outcome, &nodes, ran.arena.count, listing)
}
