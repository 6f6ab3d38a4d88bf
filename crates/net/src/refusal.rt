// Why a call refuses its input, and where.

use std::fmt;

// The refusals, each with the number that callers print.
#[derive(Clone, Copy, Debug, PartialEq, Eq)]
pub enum Refusal {
    BadEnds = 1,
    Disorderly = 2,
    OutsideLimits = 3,
    NoActivity = 4,
    MisplacedSet = 5,
    OnNoWalk = 6,
    WrongEnds = 7,
    MissingSet = 8,
    WronglyEmpty = 9,
    NotPossible = 10,
    LeftOver = 11,
    FullSide = 12,
    LineForm = 13,
    NumberForm = 14,
    TextTooLong = 15,
    NameUnanswered = 19,
    NoRows = 20,
    CountTooHigh = 21,
}

impl Refusal {
    ghost use Rattle.std.specs.Prelude.{◌≡◌};
    ghost use Rattle.net.specs.Refusals.{refusal_number, with_place};

    // The refusal's number.
    pub fn number(self) -> u32
        ensures { result ≡ refusal_number self }
    {
        self as u32
    }

    // The refusal with the place that is returned with it.
    pub fn at(self, place: u32) -> Refused
        ensures { result ≡ with_place self place }
    {
        Refused {
            refusal: self,
            place,
        }
    }
}

// A refusal and its place: a position, an activity, a line or a net, as each call says, and 0 where it is of the whole call.
// No `Option`: callers print number and place, and a refusal of the whole call is listed with place 0.
#[derive(Clone, Copy, Debug, PartialEq, Eq)]
pub struct Refused {
    pub refusal: Refusal,
    pub place: u32,
}

// A refusal of the whole call, so that `?` passes one on.
impl From<Refusal> for Refused {
    ghost use Rattle.std.specs.Prelude.{◌≡◌};
    ghost use Rattle.net.specs.Refusals.{with_place};

    ghost from_gives = { λ refusal refused. refused ≡ with_place refusal 0 };

    fn from(refusal: Refusal) -> Refused {
        refusal.at(0)
    }
}

impl fmt::Display for Refused {
    fn fmt<W: fmt::Write>(&self, f: &mut fmt::Formatter<W>) -> fmt::Result {
        write!(f, "refused {} {}", self.refusal.number(), self.place)
    }
}
