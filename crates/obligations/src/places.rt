// The places of a state's counts that a set of activities selects.

ghost use Rattle.std.specs.Prelude.{◌<◌, ◌+◌, ◌*◌};
ghost use Rattle.std.specs.Iterator.{YieldsFirst, item_count};
ghost use Rattle.obligations.specs.Limits.{pairs};
ghost use Rattle.obligations.specs.Places.{places_of};

use crate::sets::MemberIter;

// A walk over these places: base + k * stride for each of the members k that are left.
#[derive(Clone, Copy)]
pub struct Places {
    pub base: u32,
    pub stride: u32,
    pub members: MemberIter,
    ghost inside: { base + 31 * stride < pairs },
    ghost apart: { 0 < stride },
}

impl Iterator for Places {
    type Item = usize;

    ghost next_gives = { YieldsFirst (λ s. places_of s.base s.stride s.members.rest) };

    ghost remaining = { item_count (λ s. places_of s.base s.stride s.members.rest) };

    fn next(&mut self) -> Option<usize> {
        let k = self.members.next()?;
        Some((self.base + k * self.stride) as usize)
    }
}
