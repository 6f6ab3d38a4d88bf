// Sets of activities, held as 32 bits, as 01 names them: bit k for activity k. Every function takes every number; one that is above 31 is
// no activity and is in no set.

ghost use Rattle.std.specs.Prelude.{◌≡◌};
ghost use Rattle.std.specs.Iterator.{YieldsFirst, item_count};
ghost use Rattle.obligations.specs.Sets.{member, members, single, union, minus, subset, size};

// The set of k alone.
pub fn single(k: u32) -> u32
    ensures { result ≡ single k }
{
    if k < 32 { 1 << k } else { 0 }
}

// Whether k is a member.
pub fn has(set: u32, k: u32) -> bool
    ensures { result ≡ member set k }
{
    if k < 32 { (set >> k) & 1 == 1 } else { false }
}

// The members of either set.
pub fn union(set: u32, other: u32) -> u32
    ensures { result ≡ union set other }
{
    set | other
}

// The members of the set that are not members of the other.
pub fn minus(set: u32, other: u32) -> u32
    ensures { result ≡ minus set other }
{
    set & !other
}

// The set with k.
pub fn with(set: u32, k: u32) -> u32
    ensures { result ≡ union set (single k) }
{
    union(set, single(k))
}

// The set without k.
pub fn without(set: u32, k: u32) -> u32
    ensures { result ≡ minus set (single k) }
{
    minus(set, single(k))
}

// Whether each member of the set is a member of the other.
pub fn is_subset(set: u32, other: u32) -> bool
    ensures { result ≡ subset set other }
{
    minus(set, other) == 0
}

// How many members the set has.
pub fn size(set: u32) -> u32
    ensures { result ≡ size set }
{
    set.count_ones()
}

// The members of a set, in ascending order.
pub fn members(set: u32) -> MemberIter
    ensures { result.rest ≡ set }
{
    MemberIter { rest: set }
}

// A walk over a set's members: those that are left. The lowest is taken off without its number, so that the next turn doesn't wait for
// it.
#[derive(Clone, Copy)]
pub struct MemberIter {
    rest: u32,
}

impl Iterator for MemberIter {
    type Item = u32;

    ghost next_gives = { YieldsFirst (λ s. members s.rest) };

    ghost remaining = { item_count (λ s. members s.rest) };

    fn next(&mut self) -> Option<u32> {
        if self.rest == 0 {
            return None;
        }
        let lowest = self.rest.trailing_zeros();
        self.rest &= self.rest - 1;
        Some(lowest)
    }
}
