// What all constructors share: a node over its operands, or the refusal of a request; and the codes of operators.
#![tactic(auto)]

ghost use Rattle.std.specs.Prelude.{◌≡◌, ◌&&◌, leb, true};
ghost use Rattle.definitions.specs.Node as N;
ghost use Rattle.definitions.specs.Node.{last_operator, both_flags};
ghost use Rattle.definitions.specs.Machine as M;
ghost use Rattle.store.specs.Sound.{Sound};
ghost use Rattle.building.specs.Requests.{StoresSound, StoresAudited, Asked};

use arena::{DagArena, REORDERABLE};
use definitions::refusals::NOT_SOUND;
use kinds::{ADD, NEG, is_listed, is_nan_constant};
use refusal::Refusal;
use store::{Built, NodeAnswer, Parts, Store, audit};

// Operator codes run from 0 Add to 6 Neg.
const LAST_OPERATOR: u64 = NEG - ADD;

/// Whether an operator's code and flags are listed.
pub fn is_operator(code: u64, flags: u64) -> bool
    ensures { result ≡ (leb code last_operator && leb flags both_flags) }
{
    code <= LAST_OPERATOR && flags <= REORDERABLE
}

// Whether all operands are ids below the count.
fn all_below(operands: &[u32], count: u64) -> bool
    ensures { result ≡ M.all_below count operands.now }
{
    for operand in operands {
        if count <= u64::from(*operand) {
            return false;
        }
    }
    true
}

/// A node that is asked for: its kind, payload and flags, and operands of which nothing is known.
#[derive(Clone, Copy)]
pub struct Request<'a> {
    pub kind: u64,
    pub payload: u64,
    pub flags: u64,
    pub operands: &'a [u32],
}

impl<'a> Request<'a> {
    ghost use Rattle.store.specs.Held.{held, SameLists};
    ghost use Rattle.building.specs.Requests.{BuildsRequest};

    /// The id of the node that is asked for, old or new.
    ///
    /// # Errors
    ///
    /// By the first that applies: `NotANumber`, `BadChildCount`, `BadOperand`, `NoNodePlace` or `NoSlotPlace`. Nothing is changed then.
    #[inline(always)]
    pub fn build_in(self, store: &mut Store) -> Result<u64, Refusal>
        requires { Asked true self.kind self.payload self.flags }
        ensures same { SameLists store.old store.new }
        ensures builds { BuildsRequest self.entry (held store.old) result (held store.new) }
    {
        if is_nan_constant(self.kind, self.payload) {
            return Err(Refusal::NotANumber);
        }
        if !is_listed(self.kind, self.payload, self.operands.len() as u64) {
            return Err(Refusal::BadChildCount);
        }
        if !all_below(self.operands, store.count) {
            return Err(Refusal::BadOperand);
        }
        store.intern(Parts {
            kind: self.kind,
            payload: self.payload,
            flags: self.flags,
            children: self.operands,
        })
    }
}

/// The id of a node over these operands, or 5, 10, 6, 4, 21 or 22, on lent lists that are known to be sound. It stays over slices, with a kind
/// that may be none of the listed ones, since docs/ARCHITECTURE.md names it.
#[inline(always)]
pub fn build_sound(
    nodes: &mut [u64],
    slots: &mut [u32],
    arena: DagArena,
    listed: bool,
    kind: u64,
    payload: u64,
    flags: u64,
    operands: &[u32],
) -> Built
    requires { Asked listed kind payload flags × Sound nodes.old slots.old arena }
    ensures { StoresSound (M.request listed (N.node kind payload flags operands.now))
        nodes.old slots.old arena nodes.new slots.new result }
{
    let mut store = Store::over(nodes, slots, arena);
    if !listed {
        return store.built(Err(Refusal::BadCode));
    }
    let request = Request {
        kind,
        payload,
        flags,
        operands,
    };
    let answer = request.build_in(&mut store);
    store.built(answer)
}

/// The same after the audit: 20 comes first.
pub fn build(
    nodes: &mut [u64],
    slots: &mut [u32],
    arena: DagArena,
    listed: bool,
    kind: u64,
    payload: u64,
    flags: u64,
    operands: &[u32],
) -> Built
    requires { Asked listed kind payload flags }
    ensures { StoresAudited (M.request listed (N.node kind payload flags operands.now))
        nodes.old slots.old arena nodes.new slots.new result }
{
    if !audit(nodes, slots, arena) {
        return Built {
            answer: NodeAnswer::Refused(NOT_SOUND),
            arena,
        };
    }
    build_sound(nodes, slots, arena, listed, kind, payload, flags, operands)
}
