// The child places of a node: those in use hold lower ids than the node's, and the others 0.
#![tactic(auto)]

ghost use Rattle.std.specs.Prelude.{◌≡◌, ◌≤◌, length, drop};
ghost use Rattle.definitions.specs.Limits.{most_children};
ghost use Rattle.definitions.specs.Says.{Says};
ghost use Rattle.child_places.specs.Places.{AllBelow, AllZero, LowerChildren};

// Whether all of these ids are below an id.
fn all_below(children: &[u64], id: u64) -> bool
    ensures { Says result (AllBelow id children.now) }
{
    children.iter().all(|child| *child < id)
}

// Whether all of these words are 0. They are gathered by or, since `all` has a branch for each, and an audit looks at up to 16 for
// each node.
fn all_zero(words: &[u64]) -> bool
    ensures { Says result (AllZero words.now) }
{
    let mut any = 0;
    for word in words {
        any = any | *word;
    }
    any == 0
}

// Most nodes have at most so many children.
const FEW_CHILDREN: usize = 2;

// Whether the unused child places are 0. Those past the first few are looked at by themselves if so few are used: they are
// a fixed number.
fn unused_zero(places: &[u64], used: usize) -> bool
    requires { (length places.now ≡ most_children) × (used ≤ most_children) }
    ensures { Says result (AllZero (drop used places.now)) }
{
    if used <= FEW_CHILDREN {
        if !all_zero(&places[FEW_CHILDREN..]) {
            return false;
        }
        return all_zero(&places[used..FEW_CHILDREN]);
    }
    all_zero(&places[used..])
}

/// Whether the children are lower than the id and the unused places 0, in the 16 child places of a node.
pub fn lower_children(places: &[u64], arity: u64, id: u64) -> bool
    requires { (length places.now ≡ most_children) × (arity ≤ most_children) }
    ensures { Says result (LowerChildren id arity places.now) }
{
    let used = arity as usize;
    if !unused_zero(places, used) {
        return false;
    }
    all_below(&places[..used], id)
}
