// One entry of the lent list: the length byte, then 32 bytes of which the unused ones are 0.
ghost use Rattle.std.specs.Prelude.{◌≡◌, ◌+◌, ◌*◌, ◌≤◌, ◌↔◌, length, get_or, drop, slice_index, EachIndex, IsTrue};
ghost use Rattle.definitions.specs.Names.{longest_name, entry_bytes};
ghost use Rattle.definitions.specs.Says.{Says};
ghost use Rattle.name_entries.specs.Entry.{put_entry, SoundEntry, IsEntry, IsEntryOf};
ghost use Rattle.name_entries.specs.Entry.{IsByte, half_word_bytes, IsHalfWord, word_bytes, IsWord};
ghost use Rattle.name_entries.specs.Buckets.{IsBucket};

pub const ENTRY_BYTES: usize = 33;

pub const SHORTEST_NAME: usize = 1;

pub const LONGEST_NAME: usize = 32;

// A name is compared by its four words of eight bytes.
const WORD_BYTES: usize = 8;

const NAME_WORDS: usize = 4;

const BYTE_VALUES: u64 = 256;

const HALF_WORD_BYTES: usize = 4;

const HALF_WORD_VALUES: u64 = 0x1_0000_0000;

// The buckets of the audit: the greatest prime up to the most names.
pub const BUCKETS: u64 = 4093;

// The entry of a number.
pub fn at(entries: &[u8], number: usize) -> &[u8]
    requires { number * entry_bytes + entry_bytes ≤ length entries.now }
    ensures { IsEntry entries.now number result.now }
{
    let start = number * ENTRY_BYTES;
    let end = start + ENTRY_BYTES;
    &entries[start..end]
}

// Four bytes as one number, the first byte lowest.
fn half_word(entry: &[u8], from: usize) -> u64
    requires { from + half_word_bytes ≤ length entry.now }
    ensures { IsHalfWord entry.now from result }
{
    let b0 = u64::from(entry[from]);
    let b1 = u64::from(entry[from + 1]);
    let b2 = u64::from(entry[from + 2]);
    let b3 = u64::from(entry[from + 3]);
    b0 + BYTE_VALUES * (b1 + BYTE_VALUES * (b2 + BYTE_VALUES * b3))
}

// Eight bytes as one number, the first byte lowest: the compiler reads them at once.
fn word(entry: &[u8], from: usize) -> u64
    requires { from + word_bytes ≤ length entry.now }
    ensures { IsWord entry.now from result }
{
    let low = half_word(entry, from);
    let high = half_word(entry, from + HALF_WORD_BYTES);
    low + HALF_WORD_VALUES * high
}

// Whether two entries are the same: the names by words, then the length bytes. Not `a == b`: the audit of a name list compares four words
// where std compares 33 bytes one by one.
pub fn same(a: &[u8], b: &[u8]) -> bool
    requires { (length a.now ≡ entry_bytes) × (length b.now ≡ entry_bytes) }
    ensures { Says result (a.now ≡ b.now) }
{
    for k in 0..NAME_WORDS {
        let from = k * WORD_BYTES + 1;
        if word(a, from) != word(b, from) {
            return false;
        }
    }
    a[0] == b[0]
}

// The bucket of an entry: the sum of its length and its words, which start at 1, 9, 17 and 25. The weights tell names apart that have their
// words in another order.
pub fn bucket(entry: &[u8]) -> usize
    requires { length entry.now ≡ entry_bytes }
    ensures { IsBucket entry.now result }
{
    let w0 = word(entry, 1) % BUCKETS;
    let w1 = word(entry, 9) % BUCKETS;
    let w2 = word(entry, 17) % BUCKETS;
    let w3 = word(entry, 25) % BUCKETS;
    let sum = u64::from(entry[0]) + w0 + 3 * w1 + 5 * w2 + 7 * w3;
    (sum % BUCKETS) as usize
}

// Whether every byte is 0.
fn all_zero(bytes: &[u8]) -> bool
    ensures { IsTrue result ↔ EachIndex bytes.now (λ i. slice_index bytes.now i ≡ 0) }
{
    bytes.iter().all(|byte| *byte == 0)
}

// Whether an entry is sound: a length from 1 to 32, and the unused bytes 0.
pub fn sound(entry: &[u8]) -> bool
    requires { length entry.now ≡ entry_bytes }
    ensures { Says result (SoundEntry entry.now) }
{
    let n = name_length(entry);
    if n < SHORTEST_NAME || LONGEST_NAME < n {
        return false;
    }
    all_zero(&entry[n + 1..ENTRY_BYTES])
}

// The entry of a name.
pub fn of_name(name: &[u8]) -> [u8; ENTRY_BYTES]
    requires { length name.now ≤ longest_name }
    ensures { IsEntryOf name.now result }
{
    let mut entry = [0u8; ENTRY_BYTES];
    let n = name.len();
    entry[0] = n as u8;
    entry[1..n + 1].copy_from_slice(name);
    entry
}

// An entry written at a number.
pub fn put(entries: &mut [u8], number: usize, entry: &[u8])
    requires { (number * entry_bytes + entry_bytes ≤ length entries.old) × (length entry.now ≡ entry_bytes) }
    ensures { entries.new ≡ put_entry entries.old number entry.now }
{
    let start = number * ENTRY_BYTES;
    entries[start..start + ENTRY_BYTES].copy_from_slice(entry);
}

// The length of an entry's name.
pub fn name_length(entry: &[u8]) -> usize
    requires { length entry.now ≡ entry_bytes }
    ensures { IsByte (get_or entry.now 0 0) result }
{
    usize::from(entry[0])
}

// The bytes of an entry's name, and the unused ones.
pub fn name_bytes(entry: &[u8]) -> [u8; LONGEST_NAME]
    requires { length entry.now ≡ entry_bytes }
    ensures { result ≡ drop 1 entry.now }
{
    let mut bytes = [0u8; LONGEST_NAME];
    bytes.copy_from_slice(&entry[1..]);
    bytes
}
