// Reading a sheet: how it starts, and one record at a cursor.
#![tactic(auto)]

mod decoding;
mod number;

ghost use Rattle.records.specs.Reading.{OpensSheet, ReadsRecord};

use decoding::decode;
use definitions::mode::Mode;
use number::number;
pub use number::operand;
use refusal::Refusal;

/// The most bytes that a sheet may have.
pub const MOST_SHEET_BYTES: usize = 16_384;

const FIRST_BYTE: u8 = 1;

// A record is its length in two bytes, and its body.
const LENGTH_BYTES: usize = 2;

/// A place in a sheet's bytes.
#[derive(Clone, Copy)]
pub struct Cursor {
    pub at: usize,
}

/// What a record asks for, on record numbers. A body with any number of operands says where they start and how many there are.
#[derive(Clone, Copy)]
pub enum Body {
    Variable(u32),
    Constant(u64),
    Operator {
        code: u8,
        flags: u8,
        first: usize,
        count: usize,
    },
    Function {
        number: u32,
        first: usize,
        count: usize,
    },
    Control {
        code: u8,
        first: usize,
        count: usize,
    },
    Simplify {
        mode: Mode,
        operand: usize,
        depth: u8,
        budget: u32,
    },
    Prune {
        operand: usize,
        threshold: u64,
    },
}

/// A record's body, and the place after it.
#[derive(Clone, Copy)]
pub struct Record {
    pub body: Body,
    pub next: Cursor,
}

/// Where a sheet's records start. A sheet that is empty, too long, or whose first byte is not 1 is refused as bad input.
pub fn open(sheet: &[u8]) -> Result<Cursor, Refusal>
    ensures { OpensSheet sheet.now result }
{
    if sheet.len() == 0 {
        return Err(Refusal::BadInput);
    }
    if MOST_SHEET_BYTES < sheet.len() {
        return Err(Refusal::BadInput);
    }
    if sheet[0] != FIRST_BYTE {
        return Err(Refusal::BadInput);
    }
    Ok(Cursor { at: 1 })
}

/// The record at a cursor. One that ends past the sheet, is unknown or has a wrong length is refused as a bad record.
pub fn read(sheet: &[u8], cursor: Cursor) -> Result<Record, Refusal>
    ensures { ReadsRecord sheet.now cursor.at result }
{
    let at = cursor.at;
    if sheet.len() < at {
        return Err(Refusal::BadRecord);
    }
    if sheet.len() - at < LENGTH_BYTES {
        return Err(Refusal::BadRecord);
    }
    let length = number(sheet, at, LENGTH_BYTES) as usize;
    let first = at + LENGTH_BYTES;
    if sheet.len() - first < length {
        return Err(Refusal::BadRecord);
    }
    let body = decode(sheet, first, length)?;
    Ok(Record {
        body,
        next: Cursor { at: first + length },
    })
}
