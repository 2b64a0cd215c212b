// Operands of a record as ids: each is the number of an earlier record, from 0.
ghost use Rattle.std.specs.Prelude.{◌≡◌, ◌+◌, ◌*◌, ◌≤◌, length, take, map};
ghost use Rattle.definitions.specs.Limits.{most_nodes, most_records};
ghost use Rattle.records.specs.Reading.{operands_from};
ghost use Rattle.sheet.specs.Running.{id_below, operands_read, read_of};

use crate::MOST_RECORDS;
use definitions::MOST_CHILDREN;

// One operand more than a node has children, so that more are refused.
pub(crate) const OPERANDS_READ: usize = MOST_CHILDREN + 1;

// How many of a record's operands are looked at.
pub(crate) fn read_of(operands: usize) -> usize
    ensures { (result ≡ read_of operands) × (result ≤ operands_read) }
{
    operands.min(OPERANDS_READ)
}

// The id of an operand. One that is no earlier record gets the count, an id that no node has, so that the call refuses it.
pub(crate) fn operand_id(ids: &[u64; MOST_RECORDS], done: usize, count: u64, operand: usize) -> u32
    requires { (length ids.now ≡ most_records) × (done ≤ most_records) × (count ≤ most_nodes) }
    ensures { result ≡ id_below ids.now done count operand }
{
    if done <= operand {
        return count as u32;
    }
    let id = ids[operand];
    if count <= id {
        return count as u32;
    }
    id as u32
}

// The ids of the first operands from a place on.
pub(crate) fn operand_ids(
    sheet: &[u8],
    first: usize,
    operands: usize,
    ids: &[u64; MOST_RECORDS],
    done: usize,
    count: u64,
) -> [u32; OPERANDS_READ]
    requires { (operands ≤ operands_read) × (first + operands * 2 ≤ length sheet.now) × (length ids.now ≡ most_records) ×
        (done ≤ most_records) × (count ≤ most_nodes) }
    ensures { take operands result ≡ map (id_below ids.now done count) (operands_from sheet.now first operands) }
{
    let mut children = [0; OPERANDS_READ];
    for k in 0..operands {
        let operand = records::operand(sheet, first, k);
        children[k] = operand_id(ids, done, count, operand);
    }
    children
}
