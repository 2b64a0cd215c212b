// A call, by its line.
ghost use Rattle.std.specs.Prelude.{◌≡◌};

use crate::showing;
use crate::state::Now;
use arena::DagArena;
use calls::CallResult;
use encoding::codes::CallCode;
use encoding::headers::Header;
use scripts::lines;
use scripts::lines::{MOST_VALUES, Values};
use scripts::tokens::{high, narrow};

// The header of an encoded call, and the place of the first operand, if the call takes any.
#[derive(Clone, Copy)]
struct Arguments {
    header: Header,
    first: Option<usize>,
}

// What stands in a call's line: the bytes of a text or a name, or numbers.
fn given(line: &[u8], code: CallCode, turn: u32) -> Values {
    match code {
        CallCode::Intern | CallCode::Lookup | CallCode::Read => lines::bytes(line),
        _ => lines::numbers(line, turn),
    }
}

fn arguments_from(code: CallCode, a: u64, b: u64, wide: u64, first: Option<usize>) -> Arguments
    ensures { result.header.code ≡ code }
{
    Arguments {
        header: Header {
            code,
            numbers: [narrow(a), narrow(b), high(wide), narrow(wide)],
        },
        first,
    }
}

// The arguments of a call, by the numbers of its line.
fn arguments_of(code: CallCode, list: &[u64; MOST_VALUES]) -> Arguments
    ensures { result.header.code ≡ code }
{
    match code {
        CallCode::Constant => arguments_from(code, 0, 0, list[1], None),
        CallCode::Prune => arguments_from(code, list[1], 0, list[2], None),
        CallCode::Operator => arguments_from(code, list[1], list[2], 0, Some(3)),
        CallCode::Function | CallCode::Control => arguments_from(code, list[1], 0, 0, Some(2)),
        CallCode::Intern | CallCode::Lookup | CallCode::Read => arguments_from(
            code,
            0,
            0,
            0,
            Some(1),
        ),
        CallCode::Select | CallCode::IfElse | CallCode::ForLoop => Arguments {
            header: Header {
                code,
                numbers: [
                    narrow(list[1]),
                    narrow(list[2]),
                    narrow(list[3]),
                    narrow(list[4]),
                ],
            },
            first: None,
        },
        _ => arguments_from(code, list[1], list[2], list[3], None),
    }
}

fn call(
    nodes: &mut [u64],
    slots: &mut [u32],
    entries: &mut [u8],
    arena: DagArena,
    names: usize,
    line: &[u8],
    code: CallCode,
    turn: u32,
) -> CallResult {
    let values = given(line, code, turn);
    let arguments = arguments_of(code, &values.list);
    let end = values.count;
    let mut words = [0; MOST_VALUES];
    for (word, value) in words.iter_mut().zip(&values.list[..end]) {
        *word = narrow(*value);
    }
    let first = arguments.first.unwrap_or(end).min(end);
    calls::call(
        nodes,
        slots,
        entries,
        arena,
        names,
        arguments.header,
        &words[first..end],
    )
}

/// The call of a line, as often as asked for; the answer of the last is shown.
pub fn run(
    out: &impl Print,
    nodes: &mut [u64],
    slots: &mut [u32],
    entries: &mut [u8],
    now: &mut Now,
    line: &[u8],
    code: CallCode,
) {
    let mut last = call(nodes, slots, entries, now.arena, now.names, line, code, 0);
    for turn in 1..now.turns {
        last = call(
            nodes, slots, entries, last.arena, last.names, line, code, turn,
        );
    }
    showing::print_result(out, last);
    now.arena = last.arena;
    now.names = last.names;
    now.turns = 1;
}
