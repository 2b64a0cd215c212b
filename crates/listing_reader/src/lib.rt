// Reading a listing's bytes back into nodes. Nodes are written as a store keeps them, with their hashes and coefficients.
#![tactic(auto)]

mod first;
mod node;
mod number;
mod word;

ghost use Rattle.definitions.specs.Says.{Says};
ghost use Rattle.listing_reader.specs.Listing.{AnswerListed, ListingReading};
ghost use Rattle.listing_reader.specs.First.{FirstAt};

use arena::{MOST_NODES, NODE_WORDS, store_node};
use first::first_line;
use listing_lines::SheetOutcome;
use node::node_line;

// The lines of a listing are counted from 1; that of node 0 is the second.
const FIRST_LINE: u64 = 1;

const FIRST_NODE_LINE: u64 = 2;

/// What reading a listing answers: its first line and how many nodes follow it, the number of the first line that is wrong, or that the lent
/// words are too few for the nodes.
#[derive(Clone, Copy, Debug, PartialEq, Eq)]
pub enum ListingAnswer {
    Read { outcome: SheetOutcome, count: u64 },
    Refused(u64),
    Full,
}

// Whether the id that a first line answers, if it has one, is that of one of so many nodes. A listing that was cut before the
// line of its answer has too few.
fn is_answer_listed(outcome: SheetOutcome, count: u64) -> bool
    ensures { Says result (AnswerListed outcome count) }
{
    match outcome {
        SheetOutcome::Ok(id) => id < count,
        SheetOutcome::Empty => true,
        SheetOutcome::Spent(id) => id < count,
        SheetOutcome::Refused { number: _, at: _ } => true,
    }
}

// The lines of nodes from a place on, written into the lent words. The loop goes by the place of the next line: no counter that a `for` would
// take.
fn node_lines(bytes: &[u8], start: usize, outcome: SheetOutcome, nodes: &mut [u64]) -> ListingAnswer
    requires { FirstAt bytes.now outcome start }
    ensures { ListingReading bytes.now nodes.old result nodes.new }
{
    let mut at = start;
    let mut count: u64 = 0;
    while at < bytes.len() {
        if count == MOST_NODES {
            return ListingAnswer::Refused(count + FIRST_NODE_LINE);
        }
        let Some(line) = node_line(bytes, at, count) else {
            return ListingAnswer::Refused(count + FIRST_NODE_LINE);
        };
        if nodes.len() / NODE_WORDS <= count as usize {
            return ListingAnswer::Full;
        }
        store_node(nodes, count, line.node);
        at = line.next;
        count += 1;
    }
    if !is_answer_listed(outcome, count) {
        return ListingAnswer::Refused(count + FIRST_NODE_LINE);
    }
    ListingAnswer::Read { outcome, count }
}

/// Reads a listing into the lent words.
pub fn read(bytes: &[u8], nodes: &mut [u64]) -> ListingAnswer
    ensures { ListingReading bytes.now nodes.old result nodes.new }
{
    let Some(first) = first_line(bytes) else {
        return ListingAnswer::Refused(FIRST_LINE);
    };
    node_lines(bytes, first.next, first.outcome, nodes)
}
