// Runs the lines of standard input. A line is a letter, a blank and an input; numbers are hexadecimal:
//   | WORDS          what the next lines show, printed as they are
//   t TEXT           a text's listing, on fresh lists of 512 nodes, 1,024 slots and 128 names
//   s BYTES          a sheet's records in order, then `.` at the end, `?` at a malformed record, or `refused` where it is no sheet; behind
//                    `N:` stands the byte of the place N, after bytes that are 0
//   l LISTING        a listing read back, `/` for a line feed: the first line's outcome and the count of nodes, then the words of each
//                    node, or the number of the line that is wrong, or `full`
//   f FORM N M       a first line: 0 `ok`, 1 `ok -`, 2 `spent`, 3 `refused` with the numbers
//   n ID COUNT       a node's line, in a store of four nodes that is taken for one of COUNT; or a refusal
// The file `stdout` has what is asked for of each.
#![tactic(auto)]

mod bodies;
mod lines;
mod listings;
mod nodes;
mod sheets;
mod texts;

use std::io;

const INPUT_BYTES: usize = 65_536;

// A line.
fn run_line(out: &impl Print, line: &[u8]) {
    match line {
        [] | [_] => {}
        [b't', _, text @ ..] => texts::print_listing(out, text),
        [b's', _, sheet @ ..] => sheets::show(out, sheet),
        [b'l', _, listing @ ..] => listings::show(out, listing),
        [b'f', ..] => nodes::print_first(out, lines::numbers(line)),
        [b'n', ..] => nodes::print_node(out, lines::numbers(line)),
        _ => {
            let _ = out.write_all(line);
            let _ = println!(out);
        }
    }
}

fn main(rt: HostRuntime) -> io::Result<()> {
    let mut input = [0; INPUT_BYTES];
    let length = whole_input::fill(&mut rt.stdin(), &mut input)?;
    for line in input[..length].split(|byte| *byte == b'\n') {
        run_line(&rt, line);
    }
    Ok(())
}
