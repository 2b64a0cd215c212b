// What is handed on from call to call.
ghost use Rattle.std.specs.Prelude.{◌≡◌, replicate, Some, None};
ghost use Rattle.std.proofs.Math.Option.{some};
ghost use Rattle.definitions.specs.Names.{longest_name};
ghost use Rattle.text.specs.Calling as Text;
ghost use Rattle.calls.specs.Calling.{last_reply_of, NameBeside};

use crate::naming::NameCallResult;
use arena::DagArena;
use encoding::spelling::LONGEST_NAME;
use store::Built;
use store_calls::{Answer, Performed, of_built};
use text::ReadOutcome;

/// A call's reply.
#[derive(Clone, Copy)]
pub enum Reply {
    Store(Answer),
    Names(names::NameReply),
}

/// What stands after a call.
#[derive(Clone, Copy)]
pub struct CallResult {
    /// The last call's reply; `None` where no call was run.
    pub reply: Option<Reply>,
    /// The bytes of a name that the reply gives the length of, and then 0s.
    pub name: [u8; LONGEST_NAME],
    pub arena: DagArena,
    /// How many names there are.
    pub names: usize,
}

/// What the first call gets: no reply, and no names.
pub fn at_first(arena: DagArena) -> CallResult
    ensures reply { result.reply ≡ None }
    ensures name { result.name ≡ replicate longest_name 0 }
    ensures arena { result.arena ≡ arena }
    ensures names { result.names ≡ 0 }
{
    CallResult {
        reply: None,
        name: [0u8; LONGEST_NAME],
        arena,
        names: 0,
    }
}

// What a call of the store hands on.
pub(crate) fn of_store(performed: Performed, names: usize) -> CallResult
    ensures reply { result.reply ≡ Some (Reply.Store performed.answer) }
    ensures name { result.name ≡ replicate longest_name 0 }
    ensures arena { result.arena ≡ performed.arena }
    ensures names { result.names ≡ names }
{
    CallResult {
        reply: Some(Reply::Store(performed.answer)),
        name: [0u8; LONGEST_NAME],
        arena: performed.arena,
        names,
    }
}

// What a name call hands on.
pub(crate) fn of_names(named: NameCallResult, arena: DagArena) -> CallResult
    ensures reply { result.reply ≡ Some (Reply.Names named.answer) }
    ensures name { result.name ≡ named.bytes }
    ensures arena { result.arena ≡ arena }
    ensures names { result.names ≡ named.count }
{
    let name = named.bytes;
    CallResult {
        reply: Some(Reply::Names(named.answer)),
        name,
        arena,
        names: named.count,
    }
}

// What a reading hands on.
pub(crate) fn of_reading(made: ReadOutcome) -> CallResult
    ensures reply { last_reply_of result.reply result.name ≡ some (Text.answered made.answer) }
    ensures name { NameBeside result.reply result.name }
    ensures arena { result.arena ≡ made.arena }
    ensures names { result.names ≡ made.names }
{
    let performed = of_built(Built {
        answer: made.answer,
        arena: made.arena,
    });
    of_store(performed, made.names)
}
