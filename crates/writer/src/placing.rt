// A text is written from its end back into an array: a node's text is put in front of what stands after it.
ghost use Rattle.std.specs.Prelude.{◌≡◌, ◌+◌, ◌≤◌, ◌∷◌, ◌++◌, drop};
ghost use Rattle.definitions.specs.Node as N;
ghost use Rattle.store.specs.View.{nodes_in};
ghost use Rattle.name_entries.specs.Sound as Names;
ghost use Rattle.expression_text.specs.Written.{bare};
ghost use Rattle.writer.specs.Placing.{spare, NamedSymbol, Open, PutsBytes, IsWritable, PlacedText, meant_by};

use crate::numerals::put_number;
use crate::operators::{FACTOR, SUM, joint_of, rank};
use expression_text::{CLOSING_BRACKET, MINUS, OPENING_BRACKET};
use kinds::{CONSTANT, NEG};
use text_language::MOST_BYTES;

// The longest leaf, a name of 32 bytes, has a place in front of the longest text: a place below `SPARE` says that a text is too long.
pub(crate) const SPARE: usize = 32;

pub(crate) const SPACE: usize = SPARE + MOST_BYTES;

// An entry of the name list: a length, and 32 bytes.
pub(crate) const ENTRY_BYTES: usize = 33;

/// The nodes of a store and the entries of a name list, from which texts are written.
#[derive(Clone, Copy)]
pub struct Formulas<'a> {
    pub nodes: &'a [u64],
    pub count: u64,
    pub entries: &'a [u8],
    pub named: usize,
}

// One byte more in front.
fn push(out: &mut [u8; SPACE], at: usize, byte: u8) -> usize
    requires { Open out.old at }
    ensures { PutsBytes (byte ∷ drop at out.old) 1 at result out.new × (result + 1 ≡ at) }
{
    let place = at - 1;
    out[place] = byte;
    place
}

// A name in front. Its bytes go one by one: a copy of them all can need C's `memmove`, which the library is to do without.
fn put_name(entries: &[u8], symbol: usize, out: &mut [u8; SPACE], at: usize) -> usize
    requires { NamedSymbol entries.now symbol × Open out.old at }
    ensures { PutsBytes (Names.name_at entries.now symbol ++ drop at out.old) spare at result out.new }
{
    let start = symbol * ENTRY_BYTES;
    let size = usize::from(entries[start]);
    let place = at - size;
    for i in 0..size {
        out[place + i] = entries[start + 1 + i];
    }
    place
}

// A leaf's text in front.
fn put_leaf(formulas: &Formulas, id: u64, out: &mut [u8; SPACE], at: usize) -> usize
    requires { IsWritable formulas.now id × ((N.at (nodes_in formulas.now.nodes.now formulas.now.count) id).kind ≤ 1) × Open out.old at }
    ensures { PutsBytes (bare (meant_by formulas.now id) (drop at out.old)) spare
        at result
        out.new }
{
    let payload = store::payload(formulas.nodes, formulas.count, id);
    if store::kind(formulas.nodes, formulas.count, id) == CONSTANT {
        return put_number(out, at, payload);
    }
    put_name(formulas.entries, payload as usize, out, at)
}

// A node's text in front, where a text of so high a rank is wanted.
pub(crate) fn put(
    formulas: &Formulas,
    id: u64,
    level: u64,
    left: u64,
    out: &mut [u8; SPACE],
    from: usize,
) -> usize
    requires { IsWritable formulas.now id × Open out.old from }
    ensures { PlacedText (meant_by formulas.now id) level left (drop from out.old)
        out.new result }
{
    let mut node = id;
    let mut high = level;
    let mut first = from;
    loop {
        let kind = store::kind(formulas.nodes, formulas.count, node);
        if high < rank(kind) {
            if left == 0 {
                return 0;
            }
            let close = push(out, first, CLOSING_BRACKET);
            if close < SPARE {
                return 0;
            }
            let inside = put(formulas, node, SUM, left - 1, out, close);
            if inside < SPARE {
                return 0;
            }
            return push(out, inside, OPENING_BRACKET);
        }
        if kind <= CONSTANT {
            return put_leaf(formulas, node, out, first);
        }
        if kind == NEG {
            if left == 0 {
                return 0;
            }
            let operand = store::child(formulas.nodes, formulas.count, node, 0);
            let inner = put(formulas, operand, FACTOR, left - 1, out, first);
            if inner < SPARE {
                return 0;
            }
            return push(out, inner, MINUS);
        }
        let joint = joint_of(kind);
        let nesting = joint.nesting;
        if left < nesting {
            return 0;
        }
        let right = store::child(formulas.nodes, formulas.count, node, 1);
        let second = put(formulas, right, joint.right, left - nesting, out, first);
        if second < SPARE {
            return 0;
        }
        let sign = push(out, second, joint.sign);
        if sign < SPARE {
            return 0;
        }
        node = store::child(formulas.nodes, formulas.count, node, 0);
        high = joint.left;
        first = sign;
    }
}
