// The calls of a store as values: one enum of the calls, one of the answers, and one function that performs any call.
#![tactic(auto)]

pub mod answers;
pub mod codes;

ghost use Rattle.std.specs.Prelude.{◌≡◌};
ghost use Rattle.store.specs.Memory.{memory, Leaves};
ghost use Rattle.store.specs.Sound.{Sound};
ghost use Rattle.store_calls.specs.Calls.{call_of, answer_of};

pub use answers::{Answer, Performed, of_built, of_prune, of_walk};
use arena::DagArena;
use building::{build_sound, is_operator};
use definitions::mode::Mode;
use definitions::refusals::NOT_SOUND;
use kinds::{ADD, CONSTANT, CONTROL, FOR_LOOP, FUNCTION, VARIABLE};

/// A call of a store. An operator's code and flags, a control's code and a setting are numbers here, since the call itself refuses those
/// that are not listed.
#[derive(Clone, Copy)]
pub enum Call<'a> {
    Variable(u32),
    Constant(u64),
    Operator {
        code: u32,
        flags: u32,
        operands: &'a [u32],
    },
    Function {
        number: u32,
        operands: &'a [u32],
    },
    Control {
        code: u32,
        operands: &'a [u32],
    },
    Simplify {
        mode: Mode,
        root: u32,
        depth: u32,
        budget: u64,
    },
    Prune {
        root: u32,
        threshold: u64,
    },
    PruneBySetting {
        root: u32,
        setting: u32,
    },
}

impl<'a> Call<'a> {
    ghost use Rattle.store_calls.specs.Calls.{call_of, call_over};

    /// The same call over these operands, where it is one over operands.
    pub fn over(self, operands: &'a [u32]) -> Call<'a>
        ensures { call_of result ≡ call_over self.entry operands.now }
    {
        match self {
            Call::Operator { code, flags, .. } => Call::Operator {
                code,
                flags,
                operands,
            },
            Call::Function { number, .. } => Call::Function { number, operands },
            Call::Control { code, .. } => Call::Control { code, operands },
            other => other,
        }
    }
}

/// A call on a store that is known to be sound.
pub fn perform_sound(nodes: &mut [u64], slots: &mut [u32], arena: DagArena, call: Call) -> Performed
    requires { Sound nodes.old slots.old arena }
    ensures { Leaves (call_of call.entry) (memory nodes.old slots.old arena)
        (answer_of result.answer) (memory nodes.new slots.new result.arena) }
{
    match call {
        Call::Variable(symbol) => of_built(build_sound(
            nodes,
            slots,
            arena,
            true,
            VARIABLE,
            u64::from(symbol),
            0,
            &[],
        )),
        Call::Constant(bits) => of_built(build_sound(
            nodes,
            slots,
            arena,
            true,
            CONSTANT,
            bits,
            0,
            &[],
        )),
        Call::Operator {
            code,
            flags,
            operands,
        } => {
            let code = u64::from(code);
            let flags = u64::from(flags);
            let listed = is_operator(code, flags);
            of_built(build_sound(nodes, slots, arena, listed, ADD + code, 0, flags, operands))
        }
        Call::Function { number, operands } => of_built(build_sound(
            nodes,
            slots,
            arena,
            true,
            FUNCTION,
            u64::from(number),
            0,
            operands,
        )),
        Call::Control { code, operands } => {
            let payload = u64::from(code);
            let listed = payload <= FOR_LOOP;
            of_built(build_sound(nodes, slots, arena, listed, CONTROL, payload, 0, operands))
        }
        Call::Simplify {
            mode,
            root,
            depth,
            budget,
        } => of_walk(walk::simplify_sound(nodes, slots, arena, mode, root, depth, budget)),
        Call::Prune { root, threshold } => {
            of_prune(pruner::prune_sound(nodes, slots, arena, root, threshold))
        }
        Call::PruneBySetting { root, setting } => {
            of_prune(pruner::prune_by_setting_sound(nodes, slots, arena, root, setting))
        }
    }
}

/// A call on any store, which is audited first: refused with 20 where it is not sound, else the call on a sound store.
pub fn perform(nodes: &mut [u64], slots: &mut [u32], arena: DagArena, call: Call) -> Performed
    ensures { Leaves (call_of call.entry) (memory nodes.old slots.old arena)
        (answer_of result.answer) (memory nodes.new slots.new result.arena) }
{
    if !store::audit(nodes, slots, arena) {
        return Performed {
            answer: Answer::Refused(NOT_SOUND),
            arena,
        };
    }
    perform_sound(nodes, slots, arena, call)
}
