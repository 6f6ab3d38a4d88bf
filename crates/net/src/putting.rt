// Put: one set added to one side.
//
// `OrderlySides` and `a < activities` are asked in each contract and aren't types: the words of a net that a caller gives may be any
// and are tested once, at the call; a type of tested sides would have to be made anew of each lent net. So the sides, the activity
// whose side is empty, the activity and its set go side by side too: a struct of the four would be such a type, made for one put.

ghost use Rattle.std.specs.Prelude.{◌≡◌, ◌&&◌, ◌+◌, ◌*◌, ◌-◌, ◌<◌, ◌≤◌, ◌∷◌, ltb, eqb, length, get_or, take, drop};
ghost use Rattle.obligations.specs.Limits.{activities};
ghost use Rattle.net.specs.Limits.{sets};
ghost use Rattle.net.specs.Lists.{splice};
ghost use Rattle.net.specs.Put.{misplaced, PutDone, PutLeft};
ghost use Rattle.net.specs.Sides.{place_on};
ghost use Rattle.net.specs.Inner.{SidesFit, OrderlySides, SideDone, CountedDone};

use crate::orderly::is_orderly;
use crate::{Net, Refusal, Refused, Returned, SETS, Side, Sides, lists};
use obligations::ACTIVITIES;

// Where a put on one side found its set's place, among those of this kind of side, and whether the set is new there. Both are known
// of each put that isn't refused, so this is no `Option`.
#[derive(Clone, Copy)]
pub struct Placed {
    pub at: usize,
    pub new: bool,
}

// Adds a set to one side of an activity and says whether it was new.
pub fn put(mut net: Net, side: Side, activity: u32, set: u32) -> Returned<bool>
    ensures { PutDone net side activity set result }
{
    let answer = put_in(&mut net, side, activity, set);
    Returned { answer, net }
}

// Put, on a net in place.
fn put_in(net: &mut Net, side: Side, a: u32, m: u32) -> Result<bool, Refused>
    ensures { PutLeft net.old side a m result net.new }
{
    if !is_orderly(net) {
        return Err(Refusal::Disorderly.at(0));
    }
    if a >= ACTIVITIES {
        return Err(Refusal::NoActivity.at(0));
    }
    let empty = net.empty_at(side);
    let placed = put_counted(net.sides_mut(side), empty, a, m)?;
    Ok(placed.new)
}

// Puts m on activity a's side, and the counts move along with their sets: a new set has count 0, and one that is there keeps its
// own.
pub fn put_counted(sides: &mut Sides, empty: u32, a: u32, m: u32) -> Result<Placed, Refusal>
    requires orderly { OrderlySides sides.old empty }
    requires activity { a < activities }
    ensures { CountedDone sides.old empty a m result sides.new }
{
    // Before the length grows.
    let to = side_end(sides, a);
    let placed = put_side(sides, empty, a, m)?;
    if placed.new {
        insert_at(&mut sides.counts, placed.at, to, 0);
    }
    Ok(placed)
}

// Puts m on activity a's side, where the side of `empty` holds just the empty set; the counts stay where they are.
pub fn put_side(sides: &mut Sides, empty: u32, a: u32, m: u32) -> Result<Placed, Refusal>
    requires orderly { OrderlySides sides.old empty }
    requires activity { a < activities }
    ensures { SideDone sides.old empty a m result sides.new }
{
    if is_misplaced(empty, a, m) {
        return Err(Refusal::MisplacedSet);
    }
    let to = side_end(sides, a);
    let at = place_on(sides, a, m);
    if stands_at(&sides.masks, at, to, m) {
        return Ok(Placed { at, new: false });
    }
    let n = sides.lengths[a as usize];
    if n == SETS {
        return Err(Refusal::FullSide);
    }
    insert_at(&mut sides.masks, at, to, m);
    sides.lengths[a as usize] = n + 1;
    Ok(Placed { at, new: true })
}

// Where activity a's sets end, among the places of this kind of side.
fn side_end(sides: &Sides, a: u32) -> usize
    requires { (a < activities) × (get_or sides.now.lengths a 0 ≤ sets) }
    ensures { result ≡ sets * a + get_or sides.now.lengths a 0 }
{
    (SETS * a + sides.lengths[a as usize]) as usize
}

// Where m stands on activity a's side, or would stand.
fn place_on(sides: &Sides, a: u32, m: u32) -> usize
    requires { SidesFit sides.now × (a < activities) }
    ensures { result ≡ place_on sides.now a m }
{
    (SETS * a) as usize + lists::place_in(sides.sets(a), m)
}

// Whether m stands at a place, which is one of the side's if it is before `to`. A list and a place in it, as `insert_at` then has them.
fn stands_at(masks: &[u32], at: usize, to: usize, m: u32) -> bool
    requires { to ≤ length masks.now }
    ensures { result ≡ (ltb at to && eqb (get_or masks.now at 0) m) }
{
    at < to && masks[at] == m
}

// Whether m is the empty set on a side that may not hold it, or another on the side that must hold only it.
fn is_misplaced(empty: u32, a: u32, m: u32) -> bool
    ensures { result ≡ misplaced empty a m }
{
    if m == 0 { a != empty } else { a == empty }
}

// Puts x at a place, and moves those from there on, up to `to`, where a place is free. A list and places in it, as `copy_within` takes
// them.
fn insert_at(list: &mut [u32], at: usize, to: usize, x: u32)
    requires { (at ≤ to) × (to < length list.old) }
    ensures { list.new ≡ splice list.old at (x ∷ take (to - at) (drop at list.old)) }
{
    list.copy_within(at..to, at + 1);
    list[at] = x;
}
