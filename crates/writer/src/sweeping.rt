// Which nodes have a text: a sweep from the root down, by falling id, that looks at each node under it once.
ghost use Rattle.std.specs.Prelude.{◌≡◌, ◌<◌, ◌≤◌, length};
ghost use Rattle.definitions.specs.Node as N;
ghost use Rattle.definitions.specs.Limits.{most_nodes};
ghost use Rattle.definitions.specs.Says.{Says};
ghost use Rattle.store.specs.View.{nodes_in};
ghost use Rattle.store.specs.Lookup.{Lookup};
ghost use Rattle.name_entries.specs.Sound as Names;
ghost use Rattle.expression_text.specs.Proper.{is_name};
ghost use Rattle.writer.specs.Expression.{Standing, is_some, symbol_name};
ghost use Rattle.writer.specs.Placing.{Known, spelled_at};
ghost use Rattle.writer.specs.Sweeping.{FormOf, Marks, Unreached};

use crate::numerals::is_number;
use crate::placing::{ENTRY_BYTES, Formulas};
use arena::{CANONICAL, FLAGS, MOST_NODES, NODE_WORDS, REORDERABLE};
use kinds::{ADD, CONSTANT, MUL, NEG, POW, VARIABLE};
use text_bytes::{is_letter, is_word};

const NODES: usize = MOST_NODES as usize;

// The children and the flags of a node that a text can read to: no node has as many children as `NO_FORM`.
#[derive(Clone, Copy)]
pub struct Form {
    pub arity: u64,
    pub flags: u64,
}

const NO_FORM: u64 = 255;

// The form of a kind.
fn form_of(kind: u64) -> Form
    ensures { FormOf kind result }
{
    if kind <= CONSTANT {
        return Form { arity: 0, flags: 0 };
    }
    if kind == ADD || kind == MUL {
        return Form {
            arity: 2,
            flags: REORDERABLE,
        };
    }
    if kind <= POW {
        return Form { arity: 2, flags: 0 };
    }
    if kind == NEG {
        return Form { arity: 1, flags: 0 };
    }
    Form {
        arity: NO_FORM,
        flags: 0,
    }
}

// A node's flags, its mark aside.
fn flags(nodes: &[u64], count: u64, id: u64) -> u64
    requires { Lookup nodes.now count id }
    ensures { result ≡ (N.at (nodes_in nodes.now count) id).flags }
{
    nodes[id as usize * NODE_WORDS + FLAGS] % CANONICAL
}

// Whether a symbol has a name of the text's form.
fn is_named(entries: &[u8], named: usize, symbol: u64) -> bool
    requires { Names.SoundNames entries.now named }
    ensures { result ≡ is_name (symbol_name (Names.names_of entries.now named) symbol) }
{
    if named as u64 <= symbol {
        return false;
    }
    let start = symbol as usize * ENTRY_BYTES;
    let size = usize::from(entries[start]);
    if !is_letter(entries[start + 1]) {
        return false;
    }
    for j in 1..size {
        if !is_word(entries[start + (j + 1)]) {
            return false;
        }
    }
    true
}

// Whether a node's kind, flags and number of children are such as texts have, its operands aside.
fn stands(formulas: Formulas, id: u64) -> bool
    requires { Known formulas × (id < formulas.count) }
    ensures { Says result (Standing (Names.names_of formulas.entry.entries.now formulas.entry.named) (N.at (nodes_in formulas.entry.nodes.now formulas.entry.count) id)) }
{
    let kind = store::kind(formulas.nodes, formulas.count, id);
    let form = form_of(kind);
    if store::arity(formulas.nodes, formulas.count, id) != form.arity {
        return false;
    }
    if flags(formulas.nodes, formulas.count, id) != form.flags {
        return false;
    }
    let payload = store::payload(formulas.nodes, formulas.count, id);
    if kind == VARIABLE {
        return is_named(formulas.entries, formulas.named, payload);
    }
    if kind == CONSTANT {
        return is_number(payload);
    }
    true
}

// The children of a node reached.
fn reach(nodes: &[u64], count: u64, id: u64, reached: &mut [u8; NODES])
    requires { Lookup nodes.now count id × (length reached.old ≡ most_nodes) ×
        (length (N.at (nodes_in nodes.now count) id).children ≤ 2) }
    ensures { Marks (N.at (nodes_in nodes.now count) id).children reached.old reached.new }
{
    let arity = store::arity(nodes, count, id);
    if arity == 0 {
        return;
    }
    let first = store::child(nodes, count, id, 0);
    reached[first as usize] = 1;
    if arity == 1 {
        return;
    }
    let second = store::child(nodes, count, id, 1);
    reached[second as usize] = 1;
}

// Whether a node has a text: each node under it is looked at once, however often it is shared.
fn sweep(formulas: Formulas, root: u64, reached: &mut [u8; NODES]) -> bool
    requires { Known formulas × (root < formulas.count) × Unreached reached.old }
    ensures { result ≡ is_some (spelled_at formulas.entry root) }
{
    reached[root as usize] = 1;
    // Backwards, and its measure is the id: a range in reverse is no plainer, as its proof speaks of what an iterator yielded.
    let mut i = root + 1;
    while 0 < i {
        i -= 1;
        if reached[i as usize] != 0 {
            if !stands(formulas, i) {
                return false;
            }
            reach(formulas.nodes, formulas.count, i, reached);
        }
    }
    true
}

pub(crate) fn has_text(formulas: Formulas, root: u64) -> bool
    requires { Known formulas × (root < formulas.count) }
    ensures { result ≡ is_some (spelled_at formulas.entry root) }
{
    let mut reached = [0u8; NODES];
    sweep(formulas, root, &mut reached)
}
