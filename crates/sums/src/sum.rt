// The sum of the kept terms: 0.0, the one term, or the halves' sums, split at floor(n/2), left first.
ghost use Rattle.std.specs.Prelude.{◌<◌, ◌≤◌, ◌≡◌, length};
ghost use Rattle.store.specs.Held.{held, SameLists};
ghost use Rattle.chains.specs.Terms.{AllBelow};
ghost use Rattle.sums.specs.Sums.{most_pending, part, Inside, Summable, Zero, Sums, Adds, SumsTerms, Few, Splits, Summed, Joins};

use arena::{DagArena, Parts, REORDERABLE};
use chains::MOST_TERMS;
use fold::BITS_OF_ZERO;
use kinds::{ADD, CONSTANT};
use refusal::Refusal;
use store::{Built, Store};

// At most so many halvings of at most 4,096 terms are not done at a time.
const MOST_PENDING: usize = 12;

// The flags that `add` gives.
const ADD_FLAGS: u64 = REORDERABLE;

// 0.0, which stands for no terms.
fn zero(store: &mut Store) -> Result<u64, Refusal>
    ensures same { SameLists store.old store.new }
    ensures sums { Zero (held store.old) result (held store.new) }
{
    store.intern(Parts {
        kind: CONSTANT,
        payload: BITS_OF_ZERO,
        flags: 0,
        children: &[],
    })
}

// The sum of two terms or of two sums. Sums made one after another have ids one after another, so that a prune done again
// finds most sums at the id after the last one: it is looked at first.
fn add(store: &mut Store, next: &mut u64, left: u64, right: u64) -> Result<u64, Refusal>
    requires { (left < store.old.count) × (right < store.old.count) }
    ensures same { SameLists store.old store.new }
    ensures adds { Adds (held store.old) left right result (held store.new) }
{
    let operands = [left as u32, right as u32];
    let parts = Parts {
        kind: ADD,
        payload: 0,
        flags: ADD_FLAGS,
        children: &operands,
    };
    let sum = store.intern_likely(parts, *next)?;
    *next = sum + 1;
    Ok(sum)
}

// `n` terms halved, and their first half, and so on to one or two terms: the sizes of the second halves are put from a depth on,
// which becomes the depth after them. The answer is the number of terms left.
fn split(rights: &mut [usize; MOST_PENDING], depth: &mut usize, n: usize) -> usize
    requires { Few depth.old n × (length rights.old ≡ most_pending) }
    ensures { Splits rights.old depth.old n rights.new depth.new result }
{
    let mut rest = n;
    let mut to = *depth;
    while 2 < rest {
        rights[to] = rest - rest / 2;
        to += 1;
        rest = rest / 2;
    }
    *depth = to;
    rest
}

// The sum of one or two terms, `n` from a place on.
fn sum_of_few(
    store: &mut Store,
    next: &mut u64,
    terms: &[u32; MOST_TERMS],
    from: usize,
    n: usize,
) -> Result<u64, Refusal>
    requires { (1 ≤ n) × (n ≤ 2) × Inside terms.now from n × AllBelow store.old.count (part terms.now from n) }
    ensures same { SameLists store.old store.new }
    ensures sums { SumsTerms (held store.old) (part terms.now from n) result (held store.new) }
{
    let first = u64::from(terms[from]);
    if n == 1 {
        return Ok(first);
    }
    add(store, next, first, u64::from(terms[from + 1]))
}

// A sum added to the sums of the first halves whose second half it ends. The answer is the depth after them, where the
// sum is put: as that of a first half, or at depth 0 as that of all.
fn join(
    store: &mut Store,
    next: &mut u64,
    rights: &[usize; MOST_PENDING],
    lefts: &mut [u64; MOST_PENDING],
    depth: usize,
    id: u64,
) -> Result<usize, Refusal>
    requires { (depth ≤ most_pending) × (length rights.now ≡ most_pending) × (length lefts.old ≡ most_pending) × Summed rights.now
        lefts.old depth store.old.count × (id < store.old.count) }
    ensures same { SameLists store.old store.new }
    ensures joins { Joins (held store.old) rights.now lefts.old depth id (held store.new) lefts.new result }
{
    let mut sum = id;
    for place in (0..depth).rev() {
        if rights[place] != 0 {
            lefts[place] = sum;
            return Ok(place + 1);
        }
        sum = add(store, next, lefts[place], sum)?;
    }
    lefts[0] = sum;
    Ok(0)
}

// The sum of one or more terms, `n` from a place on. Of the halvings that are not done one array has the size
// of the second half, or 0 if it is being summed, and the other then the sum of the first half.
fn sum(store: &mut Store, terms: &[u32; MOST_TERMS], from: usize, n: usize) -> Result<u64, Refusal>
    requires { (1 ≤ n) × Inside terms.now from n × AllBelow store.old.count (part terms.now from n) }
    ensures same { SameLists store.old store.new }
    ensures sums { SumsTerms (held store.old) (part terms.now from n) result (held store.new) }
{
    let mut rights = [0usize; MOST_PENDING];
    let mut lefts = [0u64; MOST_PENDING];
    // No sum came before the first, so that any id may be looked at first.
    let mut next: u64 = 0;
    let mut depth: usize = 0;
    let mut rest = n;
    let mut at = from;
    loop {
        rest = split(&mut rights, &mut depth, rest);
        let id = sum_of_few(store, &mut next, terms, at, rest)?;
        at += rest;
        depth = join(store, &mut next, &rights, &mut lefts, depth, id)?;
        if depth == 0 {
            return Ok(lefts[0]);
        }
        rest = rights[depth - 1];
        rights[depth - 1] = 0;
    }
}

/// The sum of `n` terms from a place on, 0.0 where there are none.
///
/// # Errors
///
/// `NoNodePlace` or `NoSlotPlace`. What was interned before stays.
pub fn sum_of_terms(
    store: &mut Store,
    terms: &[u32; MOST_TERMS],
    from: usize,
    n: usize,
) -> Result<u64, Refusal>
    requires { Inside terms.now from n × AllBelow store.old.count (part terms.now from n) }
    ensures same { SameLists store.old store.new }
    ensures sums { SumsTerms (held store.old) (part terms.now from n) result (held store.new) }
{
    if n == 0 {
        return zero(store);
    }
    sum(store, terms, from, n)
}

/// The sum of `n` terms from a place on, 0.0 where there are none. What was interned before a refusal stays. It stays over lent lists since
/// docs/ARCHITECTURE.md names it.
pub fn balanced_add(
    nodes: &mut [u64],
    slots: &mut [u32],
    arena: DagArena,
    terms: &[u32; MOST_TERMS],
    from: usize,
    n: usize,
) -> Built
    requires { Inside terms.now from n × Summable nodes.old slots.old arena (part terms.now from n) }
    ensures { Sums nodes.old slots.old arena (part terms.now from n) nodes.new
        slots.new result }
{
    let mut store = Store::over(nodes, slots, arena);
    let answer = sum_of_terms(&mut store, terms, from, n);
    store.built(answer)
}
