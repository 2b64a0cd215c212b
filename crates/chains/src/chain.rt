// The terms of an additive chain that a threshold keeps. The chain is flattened left to right through Adds.
ghost use Rattle.std.specs.Prelude.{◌≡◌, true, ◌+◌, ◌<◌, ◌≤◌, length};
ghost use Rattle.std.specs.Float.{binary64};
ghost use Rattle.std.specs.Float.Ieee.{of_bits};
ghost use Rattle.definitions.specs.Limits.{most_terms};
ghost use Rattle.definitions.specs.Prune as Prune;
ghost use Rattle.definitions.specs.Prune.{chain};
ghost use Rattle.store.specs.View.{nodes_in};
ghost use Rattle.store.specs.Lookup.{Lookup};
ghost use Rattle.chains.specs.Terms.{children_in, Readable, Pushes, HasTerm, PutsTerm, Closes, Flattens};

use kinds::ADD;
use refusal::Refusal;

/// A chain of more terms than this is refused.
pub const MOST_TERMS: usize = 4096;

/// The terms of a chain: how many there are, and where those that are kept stand in the lent array, in order.
#[derive(Clone, Copy, Debug, PartialEq, Eq)]
pub struct Terms {
    /// The place of the first term that is kept.
    pub from: usize,
    /// How many terms there are, kept or not.
    pub found: usize,
    /// How many terms are kept.
    pub kept: usize,
}

// The first of a node's two children, put after the ids that wait before `top`: the place before which they wait then, or `None` where
// there is no place for it. The places from `free` on stay.
fn push_first(
    nodes: &[u64],
    count: u64,
    id: u64,
    terms: &mut [u32; MOST_TERMS],
    top: usize,
    free: usize,
) -> Option<usize>
    requires { Lookup nodes.now count id × (length (children_in nodes.now count id) ≡ 2) × (top ≤ free) × (free ≤ most_terms) ×
        (length terms.old ≡ most_terms) }
    ensures { Pushes (children_in nodes.now count id) top free terms.old result terms.new }
{
    if free <= top {
        return None;
    }
    terms[top] = store::child(nodes, count, id, 0) as u32;
    Some(top + 1)
}

// The children of a node before its last, put after the ids that wait before `top`: the place before which they wait then, or `None`
// where there are too few places for them. The places from `free` on stay.
// Most Adds have two children. They go without the loop, since its preparation costs more than they do.
fn push_siblings(
    nodes: &[u64],
    count: u64,
    id: u64,
    terms: &mut [u32; MOST_TERMS],
    top: usize,
    free: usize,
) -> Option<usize>
    requires { Lookup nodes.now count id × (0 < length (children_in nodes.now count id)) × (top ≤ free) × (free ≤ most_terms) ×
        (length terms.old ≡ most_terms) }
    ensures { Pushes (children_in nodes.now count id) top free terms.old result terms.new }
{
    let last = store::arity(nodes, count, id) as usize - 1;
    if last == 1 {
        return push_first(nodes, count, id, terms, top, free);
    }
    let mut to = top;
    for place in 0..last {
        if free <= to {
            return None;
        }
        terms[to] = store::child(nodes, count, id, place) as u32;
        to += 1;
    }
    Some(to)
}

// Whether an Add has two children of which the one at a place is a term.
fn has_term(nodes: &[u64], count: u64, id: u64, place: usize) -> bool
    requires { (id < count) × (place < 2) × Readable nodes.now count }
    ensures { result ≡ true → HasTerm nodes.now count id place }
{
    if store::arity(nodes, count, id) != 2 {
        return false;
    }
    store::kind(nodes, count, store::child(nodes, count, id, place)) != ADD
}

// A term put at a place, and whether it is kept: it is put in any case, so that no branch waits for what is kept.
fn put_term(
    nodes: &[u64],
    count: u64,
    threshold: u64,
    terms: &mut [u32; MOST_TERMS],
    place: usize,
    id: u64,
) -> bool
    requires { Lookup nodes.now count id × (place < most_terms) × (length terms.old ≡ most_terms) }
    ensures { PutsTerm (Prune.keeps (nodes_in nodes.now count) (of_bits binary64 threshold) id) place id
        terms.old result
        terms.new }
{
    terms[place] = id as u32;
    magnitudes::keeps(nodes, count, threshold, id)
}

// The terms kept in the first places and in the last ones, side by side. Where there are none in the first places nothing is moved.
fn close_up(terms: &mut [u32; MOST_TERMS], found: usize, front: usize, back: usize) -> Terms
    requires { (front + back ≤ most_terms) × (length terms.old ≡ most_terms) }
    ensures { Closes found front back terms.old result terms.new }
{
    let from = MOST_TERMS - back;
    if front == 0 {
        return Terms {
            from,
            found,
            kept: back,
        };
    }
    terms.copy_within(from.., front);
    Terms {
        from: 0,
        found,
        kept: front + back,
    }
}

/// The terms under an id that a threshold keeps: the chain is read left to right through Adds. Over 4,096 terms are
/// refused as `TooManyTerms`, whether they are kept or not.
// They are taken from both ends: in the first places stand those before the ids that wait, then these, before `top`, and in the last
// places those after them. Each that waits and `id` give a term at least, so that there are too many terms exactly if those found, kept
// or not, leave no place.
pub fn flatten(
    nodes: &[u64],
    count: u64,
    root: u64,
    threshold: u64,
    terms: &mut [u32; MOST_TERMS],
) -> Result<Terms, Refusal>
    requires { (root < count) × Readable nodes.now count × (length terms.old ≡ most_terms) }
    ensures { Flattens (chain (nodes_in nodes.now count) root)
        (Prune.keeps (nodes_in nodes.now count) (of_bits binary64 threshold)) result terms.new }
{
    let mut found: usize = 0;
    let mut front: usize = 0;
    let mut back: usize = 0;
    let mut top: usize = 0;
    let mut id = root;
    // A chain's nodes mostly stand equally far apart. An id that is got by subtraction waits for no word of the node above: where
    // a child is as far below as the last one was, it is; else the distance is noted, and the turn is done again.
    let mut left_step: u64 = 0;
    let mut right_step: u64 = 0;
    loop {
        if store::kind(nodes, count, id) != ADD {
            if put_term(nodes, count, threshold, terms, MOST_TERMS - 1 - back, id) {
                back += 1;
            }
            found += 1;
            if top == front {
                return Ok(close_up(terms, found, front, back));
            }
            top -= 1;
            id = terms[top] as u64;
        } else if has_term(nodes, count, id, 1) {
            if MOST_TERMS - 1 - found + front <= top {
                return Err(Refusal::TooManyTerms);
            }
            let below = id - store::child(nodes, count, id, 0);
            if below != left_step {
                left_step = below;
                continue;
            }
            let last = store::child(nodes, count, id, 1);
            if put_term(nodes, count, threshold, terms, MOST_TERMS - 1 - back, last) {
                back += 1;
            }
            found += 1;
            id = id - left_step;
        } else if top == front && has_term(nodes, count, id, 0) {
            if MOST_TERMS <= found + 1 {
                return Err(Refusal::TooManyTerms);
            }
            let below = id - store::child(nodes, count, id, 1);
            if below != right_step {
                right_step = below;
                continue;
            }
            let first = store::child(nodes, count, id, 0);
            if put_term(nodes, count, threshold, terms, front, first) {
                front += 1;
            }
            found += 1;
            top = front;
            id = id - right_step;
        } else {
            let free = MOST_TERMS - 1 - found + front;
            let Some(to) = push_siblings(nodes, count, id, terms, top, free) else {
                return Err(Refusal::TooManyTerms);
            };
            top = to;
            let last = store::arity(nodes, count, id) as usize - 1;
            id = store::child(nodes, count, id, last);
        }
    }
}
