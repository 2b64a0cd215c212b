// A record's body, by its first byte.
ghost use Rattle.std.specs.Prelude.{◌+◌, ◌≤◌};
ghost use Rattle.std.specs.Prelude as Std;
ghost use Rattle.definitions.specs.Modes.{mode_of};
ghost use Rattle.definitions.specs.Sheet as Sheet;
ghost use Rattle.records.specs.Reading.{Decodes, part};

use crate::Body;
use crate::number::{OPERAND_BYTES, number};
use definitions::mode::Mode;
use refusal::Refusal;

const VARIABLE: u8 = 1;

const CONSTANT: u8 = 2;

const OPERATOR: u8 = 3;

const FUNCTION: u8 = 4;

const CONTROL: u8 = 5;

const SIMPLIFY: u8 = 6;

const PRUNE: u8 = 7;

const SIMPLIFY_STRICTLY: u8 = 8;

// A variable's symbol, or a function's number.
const SYMBOL_BYTES: usize = 4;

// A constant's bits, or a threshold's.
const BITS_BYTES: usize = 8;

// A walk's budget.
const BUDGET_BYTES: usize = 4;

// A symbol.
fn variable_body(sheet: &[u8], at: usize, length: usize) -> Result<Body, Refusal>
    requires { at + length ≤ Std.length sheet.now }
    ensures { Decodes sheet.now (Sheet.variable_body (part sheet.now at length)) result }
{
    if length != SYMBOL_BYTES {
        return Err(Refusal::BadRecord);
    }
    Ok(Body::Variable(number(sheet, at, SYMBOL_BYTES) as u32))
}

// A constant's bits.
fn constant_body(sheet: &[u8], at: usize, length: usize) -> Result<Body, Refusal>
    requires { at + length ≤ Std.length sheet.now }
    ensures { Decodes sheet.now (Sheet.constant_body (part sheet.now at length)) result }
{
    if length != BITS_BYTES {
        return Err(Refusal::BadRecord);
    }
    Ok(Body::Constant(number(sheet, at, BITS_BYTES)))
}

// An operator and its flags, a byte each, then operands.
fn operator_body(sheet: &[u8], at: usize, length: usize) -> Result<Body, Refusal>
    requires { at + length ≤ Std.length sheet.now }
    ensures { Decodes sheet.now (Sheet.operator_body (part sheet.now at length)) result }
{
    if length < 2 {
        return Err(Refusal::BadRecord);
    }
    let left = length - 2;
    if left % OPERAND_BYTES != 0 {
        return Err(Refusal::BadRecord);
    }
    Ok(Body::Operator {
        code: sheet[at],
        flags: sheet[at + 1],
        first: at + 2,
        count: left / OPERAND_BYTES,
    })
}

// A function's number, then operands.
fn function_body(sheet: &[u8], at: usize, length: usize) -> Result<Body, Refusal>
    requires { at + length ≤ Std.length sheet.now }
    ensures { Decodes sheet.now (Sheet.function_body (part sheet.now at length)) result }
{
    if length < SYMBOL_BYTES {
        return Err(Refusal::BadRecord);
    }
    let left = length - SYMBOL_BYTES;
    if left % OPERAND_BYTES != 0 {
        return Err(Refusal::BadRecord);
    }
    Ok(Body::Function {
        number: number(sheet, at, SYMBOL_BYTES) as u32,
        first: at + SYMBOL_BYTES,
        count: left / OPERAND_BYTES,
    })
}

// A control, a byte, then operands.
fn control_body(sheet: &[u8], at: usize, length: usize) -> Result<Body, Refusal>
    requires { at + length ≤ Std.length sheet.now }
    ensures { Decodes sheet.now (Sheet.control_body (part sheet.now at length)) result }
{
    if length < 1 {
        return Err(Refusal::BadRecord);
    }
    let rest = length - 1;
    if rest % OPERAND_BYTES != 0 {
        return Err(Refusal::BadRecord);
    }
    Ok(Body::Control {
        code: sheet[at],
        first: at + 1,
        count: rest / OPERAND_BYTES,
    })
}

// An operand, a depth of one byte and a budget.
fn simplify_body(sheet: &[u8], mode: Mode, at: usize, length: usize) -> Result<Body, Refusal>
    requires { at + length ≤ Std.length sheet.now }
    ensures { Decodes sheet.now (Sheet.simplify_body (mode_of mode) (part sheet.now at length)) result }
{
    if length != OPERAND_BYTES + 1 + BUDGET_BYTES {
        return Err(Refusal::BadRecord);
    }
    let operand = number(sheet, at, OPERAND_BYTES) as usize;
    let depth = sheet[at + OPERAND_BYTES];
    let budget = number(sheet, at + OPERAND_BYTES + 1, BUDGET_BYTES) as u32;
    Ok(Body::Simplify {
        mode,
        operand,
        depth,
        budget,
    })
}

// An operand and a threshold's bits.
fn prune_body(sheet: &[u8], at: usize, length: usize) -> Result<Body, Refusal>
    requires { at + length ≤ Std.length sheet.now }
    ensures { Decodes sheet.now (Sheet.prune_body (part sheet.now at length)) result }
{
    if length != OPERAND_BYTES + BITS_BYTES {
        return Err(Refusal::BadRecord);
    }
    let operand = number(sheet, at, OPERAND_BYTES) as usize;
    let threshold = number(sheet, at + OPERAND_BYTES, BITS_BYTES);
    Ok(Body::Prune { operand, threshold })
}

// The body that the bytes from a place on are.
pub(crate) fn decode(sheet: &[u8], at: usize, length: usize) -> Result<Body, Refusal>
    requires { at + length ≤ Std.length sheet.now }
    ensures { Decodes sheet.now (Sheet.body (part sheet.now at length)) result }
{
    if length == 0 {
        return Err(Refusal::BadRecord);
    }
    let first = at + 1;
    let left = length - 1;
    match sheet[at] {
        VARIABLE => variable_body(sheet, first, left),
        CONSTANT => constant_body(sheet, first, left),
        OPERATOR => operator_body(sheet, first, left),
        FUNCTION => function_body(sheet, first, left),
        CONTROL => control_body(sheet, first, left),
        SIMPLIFY => simplify_body(sheet, Mode::Standard, first, left),
        PRUNE => prune_body(sheet, first, left),
        SIMPLIFY_STRICTLY => simplify_body(sheet, Mode::Strict, first, left),
        _ => Err(Refusal::BadRecord),
    }
}
