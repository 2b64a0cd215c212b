// The name calls, by their operands.
ghost use Rattle.definitions.specs.Names.{intern_name, lookup_name, name_of};
ghost use Rattle.encoding.specs.Encoding.{bytes_of};
ghost use Rattle.calls.specs.Calling.{RunsNameCall};

use encoding::spelling::{LONGEST_NAME, spell_name};

// An answer, the bytes of a name that it gives the length of, and how many names there are then.
#[derive(Clone, Copy)]
pub(crate) struct NameCallResult {
    pub answer: names::NameReply,
    pub bytes: [u8; LONGEST_NAME],
    pub count: usize,
}

// The name that operands spell, interned.
pub(crate) fn intern(entries: &mut [u8], count: usize, operands: &[u32]) -> NameCallResult
    ensures { RunsNameCall (intern_name (bytes_of operands.now)) entries.old count result entries.new }
{
    let name = spell_name(operands);
    let interned = names::intern(entries, count, &name.bytes[..name.length]);
    NameCallResult {
        answer: interned.answer,
        bytes: [0u8; LONGEST_NAME],
        count: interned.count,
    }
}

// The name that operands spell, looked up.
pub(crate) fn lookup(entries: &[u8], count: usize, operands: &[u32]) -> NameCallResult
    ensures { RunsNameCall (lookup_name (bytes_of operands.now)) entries.now count result entries.now }
{
    let name = spell_name(operands);
    NameCallResult {
        answer: names::lookup(entries, count, &name.bytes[..name.length]),
        bytes: [0u8; LONGEST_NAME],
        count,
    }
}

// The name of a number.
pub(crate) fn name_of(entries: &[u8], count: usize, number: u32) -> NameCallResult
    ensures { RunsNameCall (name_of number) entries.now count result entries.now }
{
    let told = names::name(entries, count, number);
    let bytes = told.bytes;
    NameCallResult {
        answer: told.answer,
        bytes,
        count,
    }
}
