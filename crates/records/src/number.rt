// Numbers in a sheet, their highest byte first.
ghost use Rattle.std.specs.Prelude.{◌≡◌, ◌+◌, ◌*◌, ◌≤◌, length};
ghost use Rattle.records.specs.Reading.{Number, operand_from};

// An operand is the number of an earlier record, in two bytes.
pub(crate) const OPERAND_BYTES: usize = 2;

// How far a byte shifts the digits before it.
const BYTE_BASE: u64 = 256;

// The number that so many bytes from a place on are.
pub(crate) fn number(sheet: &[u8], at: usize, width: usize) -> u64
    requires { (width ≤ 8) × (at + width ≤ length sheet.now) }
    ensures { Number sheet.now at width result }
{
    let mut value: u64 = 0;
    for byte in &sheet[at..at + width] {
        value = value * BYTE_BASE + u64::from(*byte);
    }
    value
}

/// The record number of an operand: the k-th of those that start at a place.
pub fn operand(sheet: &[u8], first: usize, k: usize) -> usize
    requires { first + k * 2 + 2 ≤ length sheet.now }
    ensures { result ≡ operand_from sheet.now (first + k * 2) }
{
    number(sheet, first + k * OPERAND_BYTES, OPERAND_BYTES) as usize
}
