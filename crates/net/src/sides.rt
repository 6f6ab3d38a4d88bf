// The sides of a net: for each activity an input side and an output side, each a list of sets.

use crate::{LISTS, PLACES, SETS};

// The two sides of an activity.
#[derive(Clone, Copy, Debug, PartialEq, Eq)]
pub enum Side {
    Input,
    Output,
}

// All sides of one kind. The sets of activity a's side are the first lengths[a] masks from place 16 * a on. At the same places of
// counts it is counted how often learned sequences have used each set.
// Fixed arrays side by side, which are those that paper 01 names, and no list or array of sides: so a net is one piece of memory of
// known size and known order, and what isn't used is 0, so that two nets are equal exactly if they are so word by word. A caller's
// words may be any, so that the lengths fit is no invariant but a clause, `SidesFit`, of what is called where it was tested.
#[derive(Clone, Copy, PartialEq, Eq)]
pub struct Sides {
    pub masks: [u32; PLACES],
    pub lengths: [u32; LISTS],
    pub counts: [u32; PLACES],
}

impl Sides {
    ghost use Rattle.std.specs.Prelude.{◌≡◌, ◌<◌, ◌≤◌, get_or};
    ghost use Rattle.obligations.specs.Limits.{activities};
    ghost use Rattle.net.specs.Limits.{sets};
    ghost use Rattle.net.specs.Sides.{sets_in};

    // The sets on activity a's side.
    pub fn sets(&self, a: u32) -> &[u32]
        requires activity { a < activities }
        requires at_most { get_or self.now.lengths a 0 ≤ sets }
        ensures { result.now ≡ sets_in self.now a }
    {
        let from = (SETS * a) as usize;
        &self.masks[from..from + self.lengths[a as usize] as usize]
    }
}
