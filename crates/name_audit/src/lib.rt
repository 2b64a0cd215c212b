// The audit of a name list, which refuses one that is not sound.
#![tactic(auto)]

ghost use Rattle.std.specs.Prelude.{◌≡◌, ◌*◌, ◌≤◌, length};
ghost use Rattle.definitions.specs.Names.{entry_bytes, most_names};
ghost use Rattle.definitions.specs.Says.{Says};
ghost use Rattle.name_entries.specs.Sound.{SoundNames, EntriesSound, NoNameTwice};
ghost use Rattle.name_audit.specs.Chained.{Chained, StandsBefore};

use name_entries::entry;

pub const MOST_NAMES: usize = 4096;

const BUCKETS: usize = entry::BUCKETS as usize;

// Whether every entry in use is sound.
fn entries_sound(entries: &[u8], count: usize) -> bool
    requires { count * entry_bytes ≤ length entries.now }
    ensures { Says result (EntriesSound entries.now count) }
{
    for i in 0..count {
        if !entry::sound(entry::at(entries, i)) {
            return false;
        }
    }
    true
}

// Whether a name stands among the earlier ones. `before` links each name to the one before it in its bucket, and only these are compared.
fn stands_before(entries: &[u8], number: usize, before: &[u16; MOST_NAMES], latest: usize) -> bool
    requires { Chained entries.now number before.now latest }
    ensures { Says result (StandsBefore entries.now number) }
{
    let mut place = latest;
    while 0 < place {
        let other = place - 1;
        if entry::same(entry::at(entries, other), entry::at(entries, number)) {
            return true;
        }
        place = usize::from(before[other]);
    }
    false
}

// Whether no name stands twice. Each name is compared with the earlier ones of its bucket alone: few, unless the names were chosen to share
// one. The chains of the buckets are two arrays and no map: fixed memory.
fn no_name_twice(entries: &[u8], count: usize) -> bool
    requires { (count ≤ most_names) × (count * entry_bytes ≤ length entries.now) × EntriesSound entries.now count }
    ensures { Says result (NoNameTwice entries.now count) }
{
    let mut latest = [0u16; BUCKETS];
    let mut before = [0u16; MOST_NAMES];
    for i in 0..count {
        let bucket = entry::bucket(entry::at(entries, i));
        let place = latest[bucket];
        if stands_before(entries, i, &before, usize::from(place)) {
            return false;
        }
        before[i] = place;
        latest[bucket] = (i + 1) as u16;
    }
    true
}

// Whether a name list is sound. No memory is lent for this: the buckets take 16 KB of the stack.
pub fn audit(entries: &[u8], count: usize) -> bool
    ensures { Says result (SoundNames entries.now count) }
{
    if MOST_NAMES < count {
        return false;
    }
    if entries.len() / entry::ENTRY_BYTES < count {
        return false;
    }
    if !entries_sound(entries, count) {
        return false;
    }
    no_name_twice(entries, count)
}
