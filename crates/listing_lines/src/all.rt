// All lines of a listing in one array.
ghost use Rattle.std.specs.Prelude.{◌≡◌, ◌+◌, ◌*◌, ◌≤◌, length};
ghost use Rattle.arena.specs.Nodes.{Nodes};
ghost use Rattle.listing_lines.specs.Line.{line_bytes, text};
ghost use Rattle.listing_lines.specs.Outcome.{all_lines};
ghost use Rattle.listing_lines.specs.Filling.{PutsLine, Fills};

use crate::line::Line;
use crate::node::node_line_sound;
use crate::{SheetOutcome, first_line};

// Puts text into an array from a place on, and gives the place after it.
fn put(out: &mut [u8], at: usize, more: &[u8]) -> usize
    requires { at + length more.now ≤ length out.old }
    ensures { PutsLine more.now at out.old result out.new }
{
    let end = at + more.len();
    out[at..end].copy_from_slice(more);
    end
}

/// Puts a line into an array from a place on, and gives the place after it.
pub fn put_line(out: &mut [u8], at: usize, line: Line) -> usize
    requires { (line.length ≤ line_bytes) × (at + line_bytes ≤ length out.old) }
    ensures { PutsLine (text line) at out.old result out.new }
{
    let bytes = line.bytes;
    let length = line.length;
    put(out, at, &bytes[..length])
}

/// The first line and the line of each id by rising id, at the start of an array with room for so many of the longest lines; the number
/// of bytes that they take. The bytes past them stay.
pub fn all_lines(outcome: SheetOutcome, nodes: &[u64], count: u64, out: &mut [u8]) -> usize
    requires { Nodes nodes.now count × ((count + 1) * line_bytes ≤ length out.old) }
    ensures fills { Fills (all_lines outcome nodes.now count) result out.old out.new }
    ensures at_most_full { result ≤ (count + 1) * line_bytes }
{
    let mut at = put_line(out, 0, first_line(outcome));
    for id in 0..count {
        at = put_line(out, at, node_line_sound(nodes, count, id));
    }
    at
}
