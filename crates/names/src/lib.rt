// The symbol registry: names in a lent list of entries of 33 bytes, numbered in order of first interning.
#![tactic(auto)]

ghost use Rattle.std.specs.Prelude.{◌≡◌, [], ◌*◌, ◌≤◌, length};
ghost use Rattle.definitions.specs.Names.{entry_bytes, intern_name, lookup_name};
ghost use Rattle.definitions.specs.Says.{Says};
ghost use Rattle.name_entries.specs.Sound.{SoundNames};
ghost use Rattle.names.specs.Calls.{answer_of, Allowed, FindsEntry, NameListCalled, NameCalled};

use definitions::refusals::{BAD_NAME_LENGTH, NO_NAME_PLACE, NOT_SOUND};
use name_entries::entry;

/// What a call answers: a name's number, none such, the length of a name that stands beside it, or a refusal's number.
#[derive(Clone, Copy, Debug, PartialEq, Eq)]
pub enum NameReply {
    Numbered(u32),
    Unknown,
    Named(usize),
    Refused(u64),
}

/// An answer, and how many names there are then.
#[derive(Clone, Copy)]
pub struct InternedName {
    pub answer: NameReply,
    pub count: usize,
}

/// An answer, and beside it the bytes of a name that it gives the length of.
#[derive(Clone, Copy)]
pub struct NameBytes {
    pub answer: NameReply,
    pub bytes: [u8; entry::LONGEST_NAME],
}

/// Whether a name list is sound.
pub fn is_sound(entries: &[u8], count: usize) -> bool
    ensures { Says result (SoundNames entries.now count) }
{
    name_audit::audit(entries, count)
}

// The number of the first entry that is `key`.
fn find(entries: &[u8], count: usize, key: &[u8]) -> Option<usize>
    requires { (count * entry_bytes ≤ length entries.now) × (length key.now ≡ entry_bytes) }
    ensures { FindsEntry entries.now count key.now result }
{
    for i in 0..count {
        if entry::same(entry::at(entries, i), key) {
            return Some(i);
        }
    }
    None
}

/// The number of a name whose length is allowed, found or new.
pub fn intern_allowed(entries: &mut [u8], count: usize, name: &[u8]) -> InternedName
    requires { SoundNames entries.old count × Allowed (length name.now) }
    ensures { NameListCalled entries.old count (intern_name name.now) (answer_of result.answer [])
        entries.new
        result.count }
{
    let key = entry::of_name(name);
    if let Some(known) = find(entries, count, &key) {
        return InternedName {
            answer: NameReply::Numbered(known as u32),
            count,
        };
    }
    if name_audit::MOST_NAMES <= count || entries.len() / entry::ENTRY_BYTES <= count {
        return InternedName {
            answer: NameReply::Refused(NO_NAME_PLACE),
            count,
        };
    }
    entry::put(entries, count, &key);
    InternedName {
        answer: NameReply::Numbered(count as u32),
        count: count + 1,
    }
}

fn length_allowed(length: usize) -> bool
    ensures { Says result (Allowed length) }
{
    entry::SHORTEST_NAME <= length && length <= entry::LONGEST_NAME
}

/// The number of a name, which becomes known if it is not.
pub fn intern(entries: &mut [u8], count: usize, name: &[u8]) -> InternedName
    ensures { NameListCalled entries.old count (intern_name name.now) (answer_of result.answer [])
        entries.new
        result.count }
{
    if !name_audit::audit(entries, count) {
        return InternedName {
            answer: NameReply::Refused(NOT_SOUND),
            count,
        };
    }
    if !length_allowed(name.len()) {
        return InternedName {
            answer: NameReply::Refused(BAD_NAME_LENGTH),
            count,
        };
    }
    intern_allowed(entries, count, name)
}

/// The number of a name, if it is known.
pub fn lookup(entries: &[u8], count: usize, name: &[u8]) -> NameReply
    ensures { NameListCalled entries.now count (lookup_name name.now) (answer_of result []) entries.now
        count }
{
    if !name_audit::audit(entries, count) {
        return NameReply::Refused(NOT_SOUND);
    }
    if !length_allowed(name.len()) {
        return NameReply::Refused(BAD_NAME_LENGTH);
    }
    let sought = entry::of_name(name);
    match find(entries, count, &sought) {
        Some(known) => NameReply::Numbered(known as u32),
        None => NameReply::Unknown,
    }
}

/// The name of a number, if there is one.
pub fn name(entries: &[u8], count: usize, number: u32) -> NameBytes
    ensures { NameCalled entries.now count number result }
{
    if !name_audit::audit(entries, count) {
        return NameBytes {
            answer: NameReply::Refused(NOT_SOUND),
            bytes: [0u8; entry::LONGEST_NAME],
        };
    }
    let n = number as usize;
    if count <= n {
        return NameBytes {
            answer: NameReply::Unknown,
            bytes: [0u8; entry::LONGEST_NAME],
        };
    }
    let held = entry::at(entries, n);
    let length = entry::name_length(held);
    let bytes = entry::name_bytes(held);
    NameBytes {
        answer: NameReply::Named(length),
        bytes,
    }
}
