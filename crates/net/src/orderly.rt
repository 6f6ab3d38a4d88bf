// The test of an orderly net record.

ghost use Rattle.std.specs.Prelude.{◌≡◌, ◌<◌, ◌≤◌, true, length, drop};
ghost use Rattle.obligations.specs.Limits.{activities};
ghost use Rattle.net.specs.Limits.{sets};
ghost use Rattle.net.specs.Lists.{zeros};
ghost use Rattle.net.specs.Sides.{block};
ghost use Rattle.net.specs.Inner.{SidesFit};
ghost use Rattle.net.specs.Orderly.{block_ok, sides_ok, counts_ok, kind_ok, sides_sized, ends_ok, orderly};

use crate::{Net, PLACES, SETS, Sides, lists};
use obligations::ACTIVITIES;

// Whether a net record is orderly. Each call asks this of its nets, since their words may be any. The functions behind it have it as a
// clause and not in a type. Such a type would be a struct around a lent net. A net that is being changed can't be lent beside it; and
// where a net is only read, the struct would take one clause off a contract and stand before each mention of the net in it.
pub fn is_orderly(net: &Net) -> bool
    ensures { result ≡ orderly net.now }
{
    if !ends_ok(net.start, net.end) {
        return false;
    }
    kind_ok(&net.inputs, net.start) && kind_ok(&net.outputs, net.end)
}

// Whether start and end are activities and differ.
pub fn ends_ok(start: u32, end: u32) -> bool
    ensures { result ≡ ends_ok start end }
{
    start < ACTIVITIES && end < ACTIVITIES && start != end
}

// Whether every side of one kind is as it has to be, with its counts, where the side of `empty` has to hold just the empty set.
fn kind_ok(sides: &Sides, empty: u32) -> bool
    ensures value { result ≡ kind_ok sides.now empty }
    ensures sized { sides_sized sides.now ≡ true }
{
    sides_ok(sides, empty) && counts_ok(sides)
}

// Whether every side of one kind is as it has to be, but for its counts.
fn sides_ok(sides: &Sides, empty: u32) -> bool
    ensures { result ≡ sides_ok sides.now empty }
{
    (0..ACTIVITIES).all(|a| {
        let n = sides.lengths[a as usize];
        block_ok(block(&sides.masks, a), n, a == empty)
    })
}

// Whether the places past each side's sets have count 0, on every side of one kind, none of which has more than 16 sets.
fn counts_ok(sides: &Sides) -> bool
    requires { SidesFit sides.now }
    ensures { result ≡ counts_ok sides.now }
{
    (0..ACTIVITIES).all(|a| unused_zero(block(&sides.counts, a), sides.lengths[a as usize]))
}

// The 16 places of activity a, among those of masks or of counts.
fn block(array: &[u32; PLACES], a: u32) -> &[u32]
    requires { a < activities }
    ensures block { result.now ≡ block array.now a }
    ensures long { length result.now ≡ sets }
{
    let from = (SETS * a) as usize;
    &array[from..from + SETS as usize]
}

// Whether the 16 places of a side with n sets are as they have to be; only: the side has to hold just the empty set.
fn block_ok(block: &[u32], n: u32, only: bool) -> bool
    requires { length block.now ≡ sets }
    ensures { result ≡ block_ok block.now n only }
{
    if only {
        return n == 1 && lists::all_zero(block);
    }
    if n > SETS {
        return false;
    }
    lists::ascends(&block[..n as usize]) && unused_zero(block, n)
}

// Whether the places of a side past its n sets are zero.
fn unused_zero(block: &[u32], n: u32) -> bool
    requires { n ≤ length block.now }
    ensures { result ≡ zeros (drop n block.now) }
{
    // Most sides have no sets. Of all 16 places the compiler makes a test of four vectors, without a loop.
    if n == 0 {
        return lists::all_zero(block);
    }
    lists::all_zero(&block[n as usize..])
}
