// Lines that no run of the listing program shows.
use crate::lines::MOST_NUMBERS;
use arena::{DagArena, NODE_WORDS};
use listing_lines::{Line, SheetOutcome, first_line};
use scripts::tokens::narrow;

// A store of 8 nodes and 64 slots.
const WORDS: usize = 8 * NODE_WORDS;

const SLOTS: usize = 64;

fn print_line(out: &impl Print, line: Line) {
    let bytes = line.bytes;
    if let Some(text) = bytes.get(..line.length) {
        let _ = out.write_all(text);
    }
}

/// An outcome as its first line has it, but for the line feed.
pub(crate) fn print_outcome(out: &impl Print, outcome: SheetOutcome) {
    let line = first_line(outcome);
    let bytes = line.bytes;
    if let Some([text @ .., _]) = bytes.get(..line.length) {
        let _ = out.write_all(text);
    }
}

/// The first line of a form and two numbers.
pub(crate) fn print_first(out: &impl Print, list: [u64; MOST_NUMBERS]) {
    let [_, form, first, second] = list;
    let outcome = match form {
        0 => SheetOutcome::Ok(first),
        1 => SheetOutcome::Empty,
        2 => SheetOutcome::Spent(first),
        _ => SheetOutcome::Refused {
            number: first,
            at: second,
        },
    };
    print_line(out, first_line(outcome));
}

fn print_found(out: &impl Print, nodes: &[u64], slots: &[u32], arena: DagArena, id: u32) {
    match listing_lines::node_line(nodes, slots, arena, id) {
        Ok(line) => print_line(out, line),
        Err(refusal) => {
            let _ = println!(out; "{}", refusal.number());
        }
    }
}

fn build_leaves(nodes: &mut [u64], slots: &mut [u32], arena: DagArena) -> DagArena {
    let one = builder::variable(nodes, slots, arena, u32::MAX).arena;
    builder::constant(nodes, slots, one, 0xfedc_ba98_7654_3210).arena
}

fn build_over(nodes: &mut [u64], slots: &mut [u32], arena: DagArena) -> DagArena {
    let three = builder::add(nodes, slots, arena, 0, 1).arena;
    builder::for_loop(nodes, slots, three, 2, 1, 0, 2).arena
}

/// The line of a node, in a store that is taken for one of so many nodes.
pub(crate) fn print_node(out: &impl Print, list: [u64; MOST_NUMBERS]) {
    let mut nodes = [0; WORDS];
    let mut slots = [0; SLOTS];
    match builder::fresh(&nodes, &mut slots) {
        Ok(arena) => {
            let two = build_leaves(&mut nodes, &mut slots, arena);
            let four = build_over(&mut nodes, &mut slots, two);
            let taken = DagArena {
                count: list[2],
                size: four.size,
            };
            print_found(out, &nodes, &slots, taken, narrow(list[1]));
        }
        Err(refusal) => {
            let _ = print!(out; "{}", refusal.number());
        }
    }
}
