// Fresh: the net of a start and an end with nothing but the two empty sets.

ghost use Rattle.std.specs.Prelude.{◌≡◌, ◌<◌};
ghost use Rattle.obligations.specs.Limits.{activities};
ghost use Rattle.net.specs.Fresh.{FreshDone, fresh_net, just_empty};

use crate::orderly::ends_ok;
use crate::{LISTS, Net, PLACES, Refusal, Returned, Sides};

// The fresh net of a start and an end; with a refusal that of 0 and 1.
pub fn fresh(start: u32, end: u32) -> Returned<()>
    ensures { FreshDone start end result }
{
    if !ends_ok(start, end) {
        return Returned {
            answer: Err(Refusal::BadEnds.at(0)),
            net: fresh_net(0, 1),
        };
    }
    Returned {
        answer: Ok(()),
        net: fresh_net(start, end),
    }
}

// The net of a start and an end, whose sides hold nothing but the two empty sets.
fn fresh_net(start: u32, end: u32) -> Net
    requires { (start < activities) × (end < activities) }
    ensures { result ≡ fresh_net start end }
{
    Net {
        start,
        end,
        inputs: just_empty(start),
        outputs: just_empty(end),
    }
}

// Sides that hold nothing but the empty set on activity a's.
fn just_empty(a: u32) -> Sides
    requires { a < activities }
    ensures { result ≡ just_empty a }
{
    let mut lengths = [0u32; LISTS];
    lengths[a as usize] = 1;
    Sides {
        masks: [0; PLACES],
        lengths,
        counts: [0; PLACES],
    }
}
