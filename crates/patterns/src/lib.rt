// The patterns of patterns.rs over the store, first that fits: identities, then folding, then merging; and the strict ones. Each pattern
// decides over the nodes as they are what is to stand in an operator's place; `carry_out` then makes it. Which pattern it is goes with the
// decision.
#![tactic(auto)]

ghost use Rattle.std.specs.Prelude.{◌≡◌, [], ◌∷◌};
ghost use Rattle.definitions.specs.Modes.{mode_of};
ghost use Rattle.definitions.specs.Walk.{standard};
ghost use Rattle.store.specs.Held.{held, SameLists};
ghost use Rattle.store.specs.View.{Sound};
ghost use Rattle.decisions.specs.Deciding.{Both};
ghost use Rattle.decisions.specs.Fired.{Fires};
ghost use Rattle.patterns.specs.Applied.{Operands, Applies};
ghost use Rattle.patterns.specs.Rewriting.{finished_as, AppliesIn};

use arena::DagArena;
use decisions::firing::{Decision, Pattern, first_function, merge_function};
use decisions::folding::constant_fold;
use definitions::mode::Mode;
use kinds::{ADD, MOD, NEG};
use refusal::Refusal;
use store::{NodeAnswer, Store};

/// What stands in a node's place, and the pattern that put it there, if one did.
#[derive(Clone, Copy, Debug, PartialEq, Eq)]
pub struct Rewritten {
    pub id: u64,
    pub fired: Option<Pattern>,
}

/// The same over lent lists: the result, or the refusal that stopped it; the store's counts after it; and the pattern that fired. None fires
/// where a refusal stops it.
#[derive(Clone, Copy)]
pub struct Finished {
    pub answer: NodeAnswer,
    pub arena: DagArena,
    pub fired: Option<Pattern>,
}

impl Finished {
    /// An answer with its refusal's number, beside the counts.
    pub fn of(answer: Result<Rewritten, Refusal>, arena: DagArena) -> Finished
        ensures { result ≡ finished_as answer arena }
    {
        match answer {
            Ok(rewritten) => Finished {
                answer: NodeAnswer::Id(rewritten.id),
                arena,
                fired: rewritten.fired,
            },
            Err(refusal) => Finished {
                answer: NodeAnswer::Refused(refusal.number()),
                arena,
                fired: None,
            },
        }
    }
}

// The first pattern that fits an operator of two operands.
fn binary_pattern(store: &Store, kind: u64, lhs: u64, rhs: u64) -> Option<Decision>
    requires { Both store.now.nodes.now store.now.count lhs rhs }
    ensures { Fires standard store.now.nodes.now store.now.count kind (lhs ∷ rhs ∷ []) result }
{
    if let Some(replacement) = identities::identity(store.nodes, store.count, kind, lhs, rhs) {
        return Some(Decision {
            replacement,
            pattern: first_function(kind),
        });
    }
    if let Some(replacement) = constant_fold(store.nodes, store.count, kind, lhs, rhs) {
        return Some(Decision {
            replacement,
            pattern: Pattern::ConstantFold,
        });
    }
    let replacement = merges::merge(store.nodes, store.count, kind, lhs, rhs)?;
    Some(Decision {
        replacement,
        pattern: merge_function(kind),
    })
}

// The first pattern of a mode that fits an operator of two operands.
fn operator_pattern(store: &Store, mode: Mode, kind: u64, lhs: u64, rhs: u64) -> Option<Decision>
    requires { Both store.now.nodes.now store.now.count lhs rhs }
    ensures { Fires (mode_of mode) store.now.nodes.now store.now.count kind (lhs ∷ rhs ∷ []) result }
{
    match mode {
        Mode::Standard => binary_pattern(store, kind, lhs, rhs),
        Mode::Strict => strict_patterns::strict_pattern(store.nodes, store.count, kind, lhs, rhs),
    }
}

// The first pattern that fits a kind over its children. Only operators have patterns.
fn pattern(store: &Store, mode: Mode, kind: u64, children: &[u32]) -> Option<Decision>
    requires { Operands store.now.count children.now }
    ensures { Fires (mode_of mode) store.now.nodes.now store.now.count kind children.now result }
{
    match (kind, children) {
        (NEG, [operand]) => {
            let replacement = identities::neg_double(
                store.nodes,
                store.count,
                u64::from(*operand),
            )?;
            Some(Decision {
                replacement,
                pattern: Pattern::NegDouble,
            })
        }
        (ADD..=MOD, [lhs, rhs]) => operator_pattern(
            store,
            mode,
            kind,
            u64::from(*lhs),
            u64::from(*rhs),
        ),
        _ => None,
    }
}

/// The first pattern of a mode that fits a kind over new children, carried out. `None` where no pattern fits: nothing has changed then.
///
/// # Errors
///
/// `NoNodePlace` or `NoSlotPlace`. A constant that was made before its operator stays.
pub fn apply_in(
    store: &mut Store,
    mode: Mode,
    kind: u64,
    children: &[u32],
) -> Result<Option<Rewritten>, Refusal>
    requires { Operands store.old.count children.now }
    ensures same { SameLists store.old store.new }
    ensures applies { AppliesIn (mode_of mode) kind children.now (held store.old) result (held store.new) }
{
    let Some(decision) = pattern(store, mode, kind, children) else {
        return Ok(None);
    };
    let id = replacements::carry_out(store, decision.replacement)?;
    Ok(Some(Rewritten {
        id,
        fired: Some(decision.pattern),
    }))
}

/// The same on lent lists that are known to be sound. It stays over slices since docs/ARCHITECTURE.md names it.
pub fn try_apply(
    nodes: &mut [u64],
    slots: &mut [u32],
    arena: DagArena,
    mode: Mode,
    kind: u64,
    children: &[u32],
) -> Option<Finished>
    requires { Operands arena.count children.now × Sound nodes.old slots.old arena }
    ensures { Applies (mode_of mode) kind children.now nodes.old slots.old arena nodes.new
        slots.new result }
{
    let mut store = Store::over(nodes, slots, arena);
    match apply_in(&mut store, mode, kind, children) {
        Ok(None) => None,
        Ok(Some(rewritten)) => Some(Finished::of(Ok(rewritten), store.arena())),
        Err(refusal) => Some(Finished::of(Err(refusal), store.arena())),
    }
}
