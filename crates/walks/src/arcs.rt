// The arcs of a net, as rows of sets: row a is a set of activities, those that stand in some relation to a.

ghost use Rattle.std.specs.Prelude.{◌<◌, ◌≡◌, ℕ};
ghost use Rattle.obligations.specs.Limits.{activities};
ghost use Rattle.obligations.specs.Sets.{member};
ghost use Rattle.net.specs.Inner.{SidesFit};
ghost use Rattle.walks.specs.Links.{union_of, named_rows, linked, links, unlinked, filled, sizes};

use net::{LISTS, Sides};
use obligations::{ACTIVITIES, sets};

// For each activity a set.
pub type Rows = [u32; LISTS];

// The members of all the sets.
pub fn union_of(masks: &[u32]) -> u32
    ensures { result ≡ union_of masks.now }
{
    masks.iter().copied().fold(0, sets::union)
}

// For each activity the set of those that are named on its side.
// By index, here and in `links`. Tried: by `array::from_fn` the proof didn't close, as it says nothing of what the closure still holds
// at a later turn. Over `rows.iter_mut().enumerate()` the index would have to be made an activity again, which is no plainer.
pub fn named_rows(sides: &Sides) -> Rows
    requires { SidesFit sides.now }
    ensures { result ≡ named_rows sides.now }
{
    let mut rows = [0; LISTS];
    for a in 0..ACTIVITIES {
        rows[a as usize] = union_of(sides.sets(a));
    }
    rows
}

// The members b of the set such that a is in b's row.
fn linked(set: u32, other: &Rows, a: u32) -> u32
    ensures { result ≡ linked set other.now a }
{
    sets::members(set)
        .filter(|b| sets::has(other[*b as usize], a))
        .fold(0, sets::with)
}

// For each activity a the members b of its own row such that a is in the other row of b. From outputs to inputs these are
// the activities one arc on, and from inputs to outputs those one arc back.
pub fn links(own: &Rows, other: &Rows) -> Rows
    ensures { result ≡ links own.now other.now }
{
    let mut rows = [0; LISTS];
    for a in 0..ACTIVITIES {
        let i = a as usize;
        rows[i] = linked(own[i], other, a);
    }
    rows
}

// The activities whose own row has a member that their row of links lacks.
pub fn unlinked(own: &Rows, links: &Rows) -> u32
    ensures { result ≡ unlinked own.now links.now }
{
    (0..ACTIVITIES)
        .filter(|a| sets::minus(own[*a as usize], links[*a as usize]) != 0)
        .fold(0, sets::with)
}

// The activities whose lists are not empty.
pub fn filled(lengths: &[u32; LISTS]) -> u32
    ensures { result ≡ filled lengths.now }
{
    (0..ACTIVITIES)
        .filter(|a| lengths[*a as usize] != 0)
        .fold(0, sets::with)
}

// How many members the rows have together.
pub fn sizes(rows: &Rows) -> u32
    ensures { result ≡ sizes rows.now }
{
    rows.iter().copied().map(sets::size).sum()
}
