// A line of text in an array that no line of the listing fills.
ghost use Rattle.std.specs.Prelude.{◌+◌, ◌≤◌, length};
ghost use Rattle.listing_lines.specs.Line.{line_bytes, ExtendsLine, EmptyLine};

// The longest line of a node has three numbers of at most 20 digits, 16 hex digits, 16 children, and a byte between or after
// each: 416 bytes.
pub const LINE_BYTES: usize = 448;

/// Text at the start of an array, and its length.
#[derive(Clone, Copy)]
pub struct Line {
    pub bytes: [u8; LINE_BYTES],
    pub length: usize,
}

/// A line without text.
pub fn new() -> Line
    ensures { EmptyLine result }
{
    Line {
        bytes: [0; LINE_BYTES],
        length: 0,
    }
}

/// The line with more text.
pub fn with_bytes(line: Line, more: &[u8]) -> Line
    requires { line.length + length more.now ≤ line_bytes }
    ensures { ExtendsLine line more.now (length more.now) result }
{
    let mut bytes = line.bytes;
    let length = line.length + more.len();
    bytes[line.length..length].copy_from_slice(more);
    Line { bytes, length }
}
