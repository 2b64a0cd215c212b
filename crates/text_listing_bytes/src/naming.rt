// The lines of names.
ghost use Rattle.std.specs.Prelude.{◌≡◌, ◌+◌, ◌*◌, ◌≤◌, ◌<◌, length};
ghost use Rattle.name_entries.specs.Sound.{SoundNames, names_of};
ghost use Rattle.listing_lines.specs.Line.{line_bytes, Holds};
ghost use Rattle.listing_lines.specs.Filling.{PutsLine};
ghost use Rattle.text_listing_bytes.specs.Names.{name_line, name_lines, name_length};

use listing_lines::{Line, new, put_line, with_bytes, with_number};
use names::NameReply;

// The length of a name that an answer gives.
fn name_length(answer: NameReply) -> usize
    ensures { result ≡ name_length answer }
{
    match answer {
        NameReply::Numbered(_) => 0,
        NameReply::Unknown => 0,
        NameReply::Named(length) => length,
        NameReply::Refused(_) => 0,
    }
}

// `name`, a number, and its name.
fn name_line(entries: &[u8], count: usize, number: u32) -> Line
    requires { SoundNames entries.now count × (number < count) }
    ensures { Holds (name_line (names_of entries.now count) number) result }
{
    let found = names::name(entries, count, number);
    let bytes = found.bytes;
    let length = name_length(found.answer);
    let numbered = with_number(with_bytes(new(), b"name"), u64::from(number));
    let spaced = with_bytes(numbered, b" ");
    let named = with_bytes(spaced, &bytes[..length]);
    with_bytes(named, b"\n")
}

// The lines of all names, put into an array from a place on, and the place after them.
pub(crate) fn put_names(entries: &[u8], count: usize, out: &mut [u8], at: usize) -> usize
    requires { SoundNames entries.now count × (at + count * line_bytes ≤ length out.old) }
    ensures puts_line { PutsLine (name_lines (names_of entries.now count)) at out.old result out.new }
    ensures in_array { result ≤ length out.new }
{
    let mut place = at;
    for i in 0..count {
        place = put_line(out, place, name_line(entries, count, i as u32));
    }
    place
}
