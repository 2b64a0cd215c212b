// What a sheet is printed as, a record after another.
ghost use Rattle.std.specs.Prelude.{◌≤◌, length};

use crate::bodies::print_body;
use crate::lines::longer;
use records::{Cursor, MOST_SHEET_BYTES};
use scripts::tokens::low_byte;

const MOST_RECORDS: u64 = 1_024;

// A byte more than a sheet may have.
const ROOM: usize = MOST_SHEET_BYTES + 1;

// Prints the record at a place, and says where the next one is, if there may be one.
fn print_record(out: &impl Print, sheet: &[u8], at: usize) -> Option<usize> {
    let Ok(record) = records::read(sheet, Cursor { at }) else {
        let _ = println!(out; "?");
        return None;
    };
    print_body(out, sheet, record.body);
    let _ = print!(out; "; ");
    Some(record.next.at)
}

fn print_records(out: &impl Print, sheet: &[u8], start: usize) {
    let mut at = start;
    for _ in 0..MOST_RECORDS {
        if sheet.len() <= at {
            let _ = println!(out; ".");
            return;
        }
        let Some(next) = print_record(out, sheet, at) else {
            return;
        };
        at = next;
    }
}

// Fills an array with the bytes that a line spells, and says how many they are.
fn spelled(line: &[u8], sheet: &mut [u8]) -> usize
    ensures { result ≤ length sheet.new }
{
    let mut written: usize = 0;
    let mut at: usize = 0;
    let mut value: u64 = 0;
    for sign in line {
        if *sign == b' ' {
            value = 0;
            at = written;
            continue;
        }
        if sheet.len() <= at {
            break;
        }
        if *sign == b':' {
            sheet[at] = 0;
            at = value as usize;
            value = 0;
            continue;
        }
        value = longer(value, *sign);
        sheet[at] = low_byte(value);
        written = at + 1;
    }
    written
}

/// The bytes that a line spells, and what they are printed as.
pub(crate) fn show(out: &impl Print, line: &[u8]) {
    let mut bytes = [0; ROOM];
    let length = spelled(line, &mut bytes);
    let sheet = &bytes[..length];
    match records::open(sheet) {
        Ok(cursor) => print_records(out, sheet, cursor.at),
        Err(_) => {
            let _ = println!(out; "refused");
        }
    }
}
