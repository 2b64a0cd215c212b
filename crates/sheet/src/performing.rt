// One record's call on a sound store.
ghost use Rattle.std.specs.Prelude.{◌≡◌, ◌≤◌, length};
ghost use Rattle.definitions.specs.Limits.{most_nodes, most_records};
ghost use Rattle.store.specs.Sound.{Sound};
ghost use Rattle.store.specs.Memory.{memory};
ghost use Rattle.records.specs.Reading.{OperandsInSheet};
ghost use Rattle.sheet.specs.Running.{PerformsBody, Requests, id_below, request};

use crate::MOST_RECORDS;
use crate::operands::{operand_id, operand_ids, read_of};
use arena::DagArena;
use records::Body;
use store_calls::{Call, Performed, perform_sound};

// What a record asks for: a call whose operands are still to be read, and where they start and how many there are.
#[derive(Clone, Copy)]
pub(crate) struct RecordRequest<'a> {
    pub call: Call<'a>,
    pub first: usize,
    pub operands: usize,
}

// A call without operands.
fn alone<'a>(call: Call<'a>) -> RecordRequest<'a>
    ensures { result ≡ request call.entry 0 0 }
{
    RecordRequest {
        call,
        first: 0,
        operands: 0,
    }
}

// The call of a body.
fn request_of<'a>(
    body: Body,
    ids: &[u64; MOST_RECORDS],
    done: usize,
    count: u64,
) -> RecordRequest<'a>
    requires { (length ids.now ≡ most_records) × (done ≤ most_records) × (count ≤ most_nodes) }
    ensures { Requests body (id_below ids.now done count) result }
{
    match body {
        Body::Variable(symbol) => alone(Call::Variable(symbol)),
        Body::Constant(bits) => alone(Call::Constant(bits)),
        Body::Operator {
            code,
            flags,
            first,
            count: operands,
        } => RecordRequest {
            call: Call::Operator {
                code: code as u32,
                flags: flags as u32,
                operands: &[],
            },
            first,
            operands,
        },
        Body::Function {
            number,
            first,
            count: operands,
        } => RecordRequest {
            call: Call::Function {
                number,
                operands: &[],
            },
            first,
            operands,
        },
        Body::Control {
            code,
            first,
            count: operands,
        } => RecordRequest {
            call: Call::Control {
                code: code as u32,
                operands: &[],
            },
            first,
            operands,
        },
        Body::Simplify {
            mode,
            operand,
            depth,
            budget,
        } => alone(Call::Simplify {
            mode,
            root: operand_id(ids, done, count, operand),
            depth: depth as u32,
            budget: budget as u64,
        }),
        Body::Prune { operand, threshold } => alone(Call::Prune {
            root: operand_id(ids, done, count, operand),
            threshold,
        }),
    }
}

// What a record's body asks for, done.
pub(crate) fn perform(
    sheet: &[u8],
    body: Body,
    ids: &[u64; MOST_RECORDS],
    done: usize,
    nodes: &mut [u64],
    slots: &mut [u32],
    arena: DagArena,
) -> Performed
    requires { OperandsInSheet (length sheet.now) body × (length ids.now ≡ most_records) × (done ≤ most_records) × Sound nodes.old
        slots.old arena }
    ensures { PerformsBody sheet.now body ids.now done (memory nodes.old slots.old arena)
        result.answer (memory nodes.new slots.new result.arena) }
{
    let count = arena.count;
    let request = request_of(body, ids, done, count);
    let read = read_of(request.operands);
    let children = operand_ids(sheet, request.first, read, ids, done, count);
    perform_sound(nodes, slots, arena, request.call.over(&children[..read]))
}
