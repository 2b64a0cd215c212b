// Folding: an operator over two constants becomes one constant.
ghost use Rattle.definitions.specs.Patterns as P;
ghost use Rattle.decisions.specs.Deciding.{Both, Decides};

use crate::Replacement;
use crate::constants::constant_value;

/// The constant in place of an operator over two constants; `None` where one is missing or the fold is declined.
pub fn constant_fold(
    nodes: &[u64],
    count: u64,
    kind: u64,
    lhs: u64,
    rhs: u64,
) -> Option<Replacement>
    requires { Both nodes.now count lhs rhs }
    ensures { Decides nodes.now count (λ l ns. P.constant_fold l ns kind lhs rhs) result }
{
    let a = constant_value(nodes, count, lhs)?;
    let b = constant_value(nodes, count, rhs)?;
    let bits = fold::fold(kind, a, b)?;
    Some(Replacement::Constant(bits))
}
