// The causal net (paper 01, "The net and its sets", "Learning and containment"): the record, and the calls fresh, put and
// contained. Each call takes every record and refuses what the paper refuses.

#![tactic(auto)]

mod containment;
mod lists;
mod making;
mod orderly;
pub mod putting;
mod refusal;
mod sides;

pub use containment::contained;
pub use making::fresh;
use obligations::ACTIVITIES;
pub use orderly::is_orderly;
pub use putting::put;
pub use refusal::{Refusal, Refused};
pub use sides::{Side, Sides};

// A side holds at most this many sets.
pub const SETS: u32 = 16;

// A kind of side has a list for each activity.
pub const LISTS: usize = ACTIVITIES as usize;

// So many uses of a set are counted at most.
pub const MOST_USES: u32 = u32::MAX;

// The places of the sets in all lists of a kind of side.
pub const PLACES: usize = (ACTIVITIES * SETS) as usize;

// A net, passed to and returned from the calls by value, as 01 names it.
#[derive(Clone, Copy, PartialEq, Eq)]
pub struct Net {
    pub start: u32,
    pub end: u32,
    pub inputs: Sides,
    pub outputs: Sides,
}

impl Net {
    ghost use Rattle.std.specs.Prelude.{◌≡◌};
    ghost use Rattle.std.specs.Borrow.{sem};
    ghost use Rattle.net.specs.Sides.{sides_of, empty_at};
    ghost use Rattle.net.specs.Inner.{LendsSides};

    // The sides of one kind, lent to be changed.
    pub fn sides_mut(&mut self, side: Side) -> &mut Sides
        ensures* writes_back { sem 𝓛 (LendsSides self.entry side result) }
        ensures value { result.now ≡ sides_of self.old side }
    {
        match side {
            Side::Input => &mut self.inputs,
            Side::Output => &mut self.outputs,
        }
    }

    // The activity whose side of this kind holds just the empty set: the start for inputs, the end for outputs.
    pub fn empty_at(&self, side: Side) -> u32
        ensures { result ≡ empty_at self.now side }
    {
        match side {
            Side::Input => self.start,
            Side::Output => self.end,
        }
    }
}

// What a call that returns a net answers, and that net.
#[derive(Clone, Copy)]
pub struct Returned<T> {
    pub answer: Result<T, Refused>,
    pub net: Net,
}
