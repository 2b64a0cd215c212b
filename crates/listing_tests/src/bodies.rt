// What a record's body is printed as.
use definitions::mode::Mode;
use records::Body;

// Operands are printed up to this many; of more, the last.
const FEW: usize = 4;

// A number, if two bytes of the sheet spell it.
fn print_operand(out: &impl Print, sheet: &[u8], first: usize, k: usize) {
    let end = k.saturating_mul(2).saturating_add(2).saturating_add(first);
    if end <= sheet.len() {
        let _ = print!(out; " {}", records::operand(sheet, first, k));
    }
}

fn print_operands(out: &impl Print, sheet: &[u8], first: usize, count: usize) {
    let _ = print!(out; " {count}:");
    let start = if FEW < count { count - 1 } else { 0 };
    for k in start..count {
        print_operand(out, sheet, first, k);
    }
}

pub(crate) fn print_body(out: &impl Print, sheet: &[u8], body: Body) {
    match body {
        Body::Variable(symbol) => {
            let _ = print!(out; "variable {symbol}");
        }
        Body::Constant(bits) => {
            let _ = print!(out; "constant {bits}");
        }
        Body::Operator {
            code,
            flags,
            first,
            count,
        } => {
            let _ = print!(out; "operator {code} {flags}");
            print_operands(out, sheet, first, count);
        }
        Body::Function {
            number,
            first,
            count,
        } => {
            let _ = print!(out; "function {number}");
            print_operands(out, sheet, first, count);
        }
        Body::Control { code, first, count } => {
            let _ = print!(out; "control {code}");
            print_operands(out, sheet, first, count);
        }
        Body::Simplify {
            mode,
            operand,
            depth,
            budget,
        } => {
            let word = match mode {
                Mode::Standard => "simplify",
                Mode::Strict => "simplify strictly",
            };
            let _ = print!(out; "{word} {operand} {depth} {budget}");
        }
        Body::Prune { operand, threshold } => {
            let _ = print!(out; "prune {operand} {threshold}");
        }
    }
}
