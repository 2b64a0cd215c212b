// A program run over the lent lists: each token is one name call, one store call, or a name call and then a store call.
ghost use Rattle.std.specs.Prelude.{◌≡◌, [], ◌≤◌, ◌<◌, length, get_or, drop};
ghost use Rattle.definitions.specs.Machine as M;
ghost use Rattle.store.specs.Memory.{memory, answer_of};
ghost use Rattle.store.specs.Sound.{Sound};
ghost use Rattle.building.specs.Requests.{BuildsSound};
ghost use Rattle.names.specs.Calls.{Allowed};
ghost use Rattle.text_language.specs.Reader.{atom_of};
ghost use Rattle.text_language.specs.Program.{most_waiting, name, atom_token, operator_token, token_at, tokens, FitsProgram};
ghost use Rattle.text.specs.Memory.{controller_memory, BothSound};
ghost use Rattle.text.specs.Making.{PerformsToken, RunsProgram, operator_call, flags_of, refusal_of, stack_of};

use arena::DagArena;
use building::build_sound;
use kinds::{ADD, CONSTANT, MUL, NEG, POW, VARIABLE};
use store::{Built, NodeAnswer};
use text_language::MOST_NESTED;
use text_program::{FIRST_OPERATOR, bits_at, name_end, name_starts, operand_count};

// The most results that wait: two for each level of nesting, and three.
const MOST_WAITING: usize = 2 * MOST_NESTED + 3;

// An answer, with the counts of the store and of the names after it.
#[derive(Clone, Copy)]
pub struct ReadOutcome {
    pub answer: NodeAnswer,
    pub arena: DagArena,
    pub names: usize,
}

// The constant of these bits.
fn number(nodes: &mut [u64], slots: &mut [u32], arena: DagArena, bits: u64) -> Built
    requires { Sound nodes.old slots.old arena }
    ensures { BuildsSound (M.requested (M.constant bits)) (memory nodes.old slots.old arena)
        (answer_of result.answer) (memory nodes.new slots.new result.arena) }
{
    build_sound(nodes, slots, arena, true, CONSTANT, bits, 0, &[])
}

// The variable of a symbol.
fn variable(nodes: &mut [u64], slots: &mut [u32], arena: DagArena, symbol: u32) -> Built
    requires { Sound nodes.old slots.old arena }
    ensures { BuildsSound (M.requested (M.variable symbol)) (memory nodes.old slots.old arena)
        (answer_of result.answer) (memory nodes.new slots.new result.arena) }
{
    build_sound(
        nodes,
        slots,
        arena,
        true,
        VARIABLE,
        u64::from(symbol),
        0,
        &[],
    )
}

// The flags of a kind whose operands may be swapped and regrouped.
const BOTH_FLAGS: u64 = 3;

// `add` and `mul` give both flags, other constructors none.
fn flags_of(kind: u64) -> u64
    ensures { result ≡ flags_of kind }
{
    match kind {
        ADD | MUL => BOTH_FLAGS,
        _ => 0,
    }
}

// The node of an operator over the last results, `first` the very last.
fn operator(
    nodes: &mut [u64],
    slots: &mut [u32],
    arena: DagArena,
    kind: u64,
    first: u32,
    second: u32,
) -> Built
    requires { Sound nodes.old slots.old arena }
    ensures { BuildsSound (M.requested (operator_call (operator_token kind) first second))
        (memory nodes.old slots.old arena) (answer_of result.answer)
        (memory nodes.new slots.new result.arena) }
{
    match kind {
        ADD..=POW => {
            let flags = flags_of(kind);
            build_sound(nodes, slots, arena, true, kind, 0, flags, &[second, first])
        }
        _ => build_sound(nodes, slots, arena, true, NEG, 0, 0, &[first]),
    }
}

// The number of the refusal that a name call gave.
fn refusal_of(answer: names::NameReply) -> u64
    ensures { result ≡ refusal_of answer }
{
    match answer {
        names::NameReply::Numbered(_) => 0,
        names::NameReply::Unknown => 0,
        names::NameReply::Named(_) => 0,
        names::NameReply::Refused(number) => number,
    }
}

// A name, and just after it its node.
fn named(
    nodes: &mut [u64],
    slots: &mut [u32],
    arena: DagArena,
    entries: &mut [u8],
    count: usize,
    bytes: &[u8],
) -> ReadOutcome
    requires { BothSound (controller_memory nodes.old slots.old arena entries.old count) × Allowed (length bytes.now) }
    ensures { PerformsToken (name bytes.now) 0 0
        (controller_memory nodes.old slots.old arena entries.old count) result.answer
        (controller_memory nodes.new slots.new result.arena entries.new result.names) }
{
    let interned = names::intern_allowed(entries, count, bytes);
    let answer = interned.answer;
    let after = interned.count;
    let names::NameReply::Numbered(symbol) = answer else {
        return ReadOutcome {
            answer: NodeAnswer::Refused(refusal_of(answer)),
            arena,
            names: after,
        };
    };
    let built = variable(nodes, slots, arena, symbol);
    ReadOutcome {
        answer: built.answer,
        arena: built.arena,
        names: after,
    }
}

// The node of the number or name that starts at a place.
fn leaf(
    text: &[u8],
    at: usize,
    nodes: &mut [u64],
    slots: &mut [u32],
    arena: DagArena,
    entries: &mut [u8],
    count: usize,
) -> ReadOutcome
    requires { BothSound (controller_memory nodes.old slots.old arena entries.old count) }
    ensures { PerformsToken (atom_token (atom_of (drop at text.now))) 0 0
        (controller_memory nodes.old slots.old arena entries.old count) result.answer
        (controller_memory nodes.new slots.new result.arena entries.new result.names) }
{
    if name_starts(text, at) {
        let end = name_end(text, at);
        let bytes = &text[at..end];
        return named(nodes, slots, arena, entries, count, bytes);
    }
    let bits = bits_at(text, at);
    let built = number(nodes, slots, arena, bits);
    ReadOutcome {
        answer: built.answer,
        arena: built.arena,
        names: count,
    }
}

// One token: its call or calls, over the last two results.
fn perform(
    text: &[u8],
    word: u16,
    first: u32,
    second: u32,
    nodes: &mut [u64],
    slots: &mut [u32],
    arena: DagArena,
    entries: &mut [u8],
    count: usize,
) -> ReadOutcome
    requires { BothSound (controller_memory nodes.old slots.old arena entries.old count) }
    ensures { PerformsToken (token_at text.now word) first second
        (controller_memory nodes.old slots.old arena entries.old count) result.answer
        (controller_memory nodes.new slots.new result.arena entries.new result.names) }
{
    if word < FIRST_OPERATOR {
        return leaf(text, word as usize, nodes, slots, arena, entries, count);
    }
    let kind = u64::from(word - FIRST_OPERATOR);
    let built = operator(nodes, slots, arena, kind, first, second);
    ReadOutcome {
        answer: built.answer,
        arena: built.arena,
        names: count,
    }
}

// The last result but so many, or 0. An array and a height, as the memory is fixed: no heap in the library.
fn waiting(stack: &[u32; MOST_WAITING], height: usize, back: usize) -> u32
    requires { (length stack.now ≡ most_waiting) × (height ≤ most_waiting) }
    ensures { result ≡ get_or (stack_of stack.now height) back 0 }
{
    if back < height {
        stack[height - 1 - back]
    } else {
        0
    }
}

// A program run from its first token, until it is through or a call is refused.
pub(crate) fn run_program(
    text: &[u8],
    program: &[u16],
    nodes: &mut [u64],
    slots: &mut [u32],
    arena: DagArena,
    entries: &mut [u8],
    names: usize,
) -> ReadOutcome
    requires sound { BothSound (controller_memory nodes.old slots.old arena entries.old names) }
    requires fits { FitsProgram 0 (tokens text.now program.now (length program.now)) }
    ensures { RunsProgram (tokens text.now program.now (length program.now))
        (controller_memory nodes.old slots.old arena entries.old names) result.answer
        (controller_memory nodes.new slots.new result.arena entries.new result.names) }
{
    let mut stack = [0u32; MOST_WAITING];
    let mut height: usize = 0;
    let mut store = arena;
    let mut count = names;
    for word in program {
        let first = waiting(&stack, height, 0);
        let second = waiting(&stack, height, 1);
        let made = perform(
            text, *word, first, second, nodes, slots, store, entries, count,
        );
        let NodeAnswer::Id(id) = made.answer else {
            return made;
        };
        store = made.arena;
        count = made.names;
        let place = height - operand_count(*word);
        stack[place] = id as u32;
        height = place + 1;
    }
    let last = waiting(&stack, height, 0);
    ReadOutcome {
        answer: NodeAnswer::Id(u64::from(last)),
        arena: store,
        names: count,
    }
}
