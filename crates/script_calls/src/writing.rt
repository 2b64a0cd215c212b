// A node's text, written to a buffer.
use crate::state::Now;
use scripts::printing::refused;

const BUFFER: usize = 9_000;

// What stands in the buffer before a write.
const FILLING: u8 = b'.';

// Whether the bytes from a place on are those that were filled in.
fn show_whether_touched(out: &impl Print, buffer: &[u8], from: usize) {
    if buffer.iter().skip(from).any(|byte| *byte != FILLING) {
        let _ = print!(out; ", bytes changed");
    }
}

/// A node's text, in a buffer of so many bytes.
pub fn write(
    out: &impl Print,
    nodes: &[u64],
    slots: &[u32],
    entries: &[u8],
    now: &Now,
    id: u32,
    size: usize,
) {
    let mut bytes = [FILLING; BUFFER];
    let buffer = &mut bytes[..size.min(BUFFER)];
    match writer::write(nodes, slots, now.arena, entries, now.names, id, buffer) {
        Ok(length) => {
            let _ = print!(out; " {length} ");
            if let Some(text) = buffer.get(..length) {
                let _ = out.write_all(text);
            }
            show_whether_touched(out, buffer, length);
        }
        Err(refusal) => {
            refused(out, refusal.number());
            show_whether_touched(out, buffer, 0);
        }
    }
}
