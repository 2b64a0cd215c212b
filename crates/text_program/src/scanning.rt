// The scan: whether a text is in the language, without recursion, so that 8,000 open brackets are decided too.
ghost use Rattle.std.specs.Prelude.{◌≡◌, ◌≤◌, length};
ghost use Rattle.text_language.specs.Scan.{is_text};
ghost use Rattle.text_program.specs.Scanning.{StepSays};

use crate::places::{atom_end, next_byte};
use std::ops::ControlFlow;
use text_bytes::joins;

// Where the scan of a text is: an operand is wanted or an operator, and so many brackets are open.
#[derive(Clone, Copy)]
pub(crate) struct ScanState {
    pub at: usize,
    pub operand: bool,
    pub brackets: usize,
}

// The scan goes on by a byte or by a number or name, or ends with whether the text is in the language.
fn step(text: &[u8], state: ScanState) -> ControlFlow<bool, ScanState>
    requires inside { state.at ≤ length text.now }
    requires few { state.brackets ≤ state.at }
    ensures { StepSays text.now state result }
{
    let brackets = state.brackets;
    let next = next_byte(text, state.at);
    if state.operand {
        if next.byte == b'-' {
            return ControlFlow::Continue(ScanState {
                at: next.at + 1,
                operand: true,
                brackets,
            });
        }
        if next.byte == b'(' {
            return ControlFlow::Continue(ScanState {
                at: next.at + 1,
                operand: true,
                brackets: brackets + 1,
            });
        }
        return match atom_end(text, next.at) {
            Some(end) => ControlFlow::Continue(ScanState {
                at: end,
                operand: false,
                brackets,
            }),
            None => ControlFlow::Break(false),
        };
    }
    if joins(next.byte) {
        return ControlFlow::Continue(ScanState {
            at: next.at + 1,
            operand: true,
            brackets,
        });
    }
    if next.byte == b')' {
        if brackets == 0 {
            return ControlFlow::Break(false);
        }
        return ControlFlow::Continue(ScanState {
            at: next.at + 1,
            operand: false,
            brackets: brackets - 1,
        });
    }
    ControlFlow::Break(next.at == text.len() && brackets == 0)
}

// Whether a text is in the language.
pub(crate) fn scan(text: &[u8]) -> bool
    ensures { result ≡ is_text text.now }
{
    let mut state = ScanState {
        at: 0,
        operand: true,
        brackets: 0,
    };
    loop {
        match step(text, state) {
            ControlFlow::Continue(further) => {
                state = further;
            }
            ControlFlow::Break(decided) => {
                return decided;
            }
        }
    }
}
