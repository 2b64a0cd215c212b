// Which pattern a decision is by: one of the nine functions of `patterns.rs` from `add_zero` to `add_coef_merge`, in the file's order.
ghost use Rattle.std.specs.Prelude.{◌≡◌};
ghost use Rattle.definitions.specs.Firing.{first_function, merge_function};
ghost use Rattle.decisions.specs.Fired.{pattern_of};

use crate::Replacement;
use kinds::{ADD, DIV, MUL, POW, SUB};

/// A built-in pattern, by the function of `patterns.rs` that it comes from.
#[derive(Clone, Copy, Debug, PartialEq, Eq)]
pub enum Pattern {
    AddZero,
    SubIdentity,
    MulIdentity,
    DivIdentity,
    PowIdentity,
    NegDouble,
    ConstantFold,
    MulCoefMerge,
    AddCoefMerge,
}

/// What is to stand in an operator's place, and the pattern that says so.
#[derive(Clone, Copy, Debug, PartialEq, Eq)]
pub struct Decision {
    pub replacement: Replacement,
    pub pattern: Pattern,
}

/// The first function of an operator: its identities, strict ones too.
pub fn first_function(kind: u64) -> Pattern
    ensures { pattern_of result ≡ first_function kind }
{
    match kind {
        ADD => Pattern::AddZero,
        SUB => Pattern::SubIdentity,
        MUL => Pattern::MulIdentity,
        DIV => Pattern::DivIdentity,
        POW => Pattern::PowIdentity,
        _ => Pattern::NegDouble,
    }
}

/// The merge of an operator: only Mul and Add have one.
pub fn merge_function(kind: u64) -> Pattern
    ensures { pattern_of result ≡ merge_function kind }
{
    match kind {
        MUL => Pattern::MulCoefMerge,
        _ => Pattern::AddCoefMerge,
    }
}
