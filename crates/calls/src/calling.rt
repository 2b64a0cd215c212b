// One call, by its header and operands.
ghost use Rattle.std.specs.Prelude.{◌<◌};
ghost use Rattle.store.specs.Memory.{memory};
ghost use Rattle.text.specs.Memory.{controller_memory};
ghost use Rattle.encoding.specs.Codes.{code_of};
ghost use Rattle.encoding.specs.Encoding.{first_naming};
ghost use Rattle.encoding.specs.Headers.{header_call};
ghost use Rattle.calls.specs.Calling.{RunsStoreCall, RunsCall};

use crate::handing::{CallResult, of_names, of_reading, of_store};
use crate::naming;
use crate::reading::call_reading;
use arena::DagArena;
use encoding::codes::CallCode;
use encoding::headers::{Header, store_call};
use store_calls::{Performed, perform};

// The call of the store that a header has.
fn call_store(
    nodes: &mut [u64],
    slots: &mut [u32],
    arena: DagArena,
    header: &Header,
    operands: &[u32],
) -> Performed
    requires { code_of header.now.code < first_naming }
    ensures { RunsStoreCall (header_call header.now operands.now) (memory nodes.old slots.old arena) result
        (memory nodes.new slots.new result.arena) }
{
    perform(nodes, slots, arena, store_call(header, operands))
}

/// The call of a header, on a store of `arena` and a list of so many names.
pub fn call(
    nodes: &mut [u64],
    slots: &mut [u32],
    entries: &mut [u8],
    arena: DagArena,
    names: usize,
    header: Header,
    operands: &[u32],
) -> CallResult
    ensures { RunsCall (header_call header operands.now)
        (controller_memory nodes.old slots.old arena entries.old names) result
        (controller_memory nodes.new slots.new result.arena entries.new result.names) }
{
    match header.code {
        CallCode::Intern => of_names(naming::intern(entries, names, operands), arena),
        CallCode::Lookup => of_names(naming::lookup(entries, names, operands), arena),
        CallCode::NameOf => of_names(naming::name_of(entries, names, header.numbers[0]), arena),
        CallCode::Read => {
            of_reading(call_reading(nodes, slots, entries, arena, names, operands))
        }
        _ => of_store(call_store(nodes, slots, arena, &header, operands), names),
    }
}
