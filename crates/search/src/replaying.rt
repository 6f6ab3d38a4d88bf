// Replay (paper 01, "Replay"), as the call that takes every net and trace, and for a net that has been checked.

ghost use Rattle.std.specs.Prelude.{◌≡◌, length};
ghost use Rattle.net.specs.Inner.{SidesFit};
ghost use Rattle.search.specs.Trace.{has_room, TraceWithRoom};
ghost use Rattle.search.specs.Replay.{ReplayDone, CheckedDone};

use crate::Outcome;
use crate::backtrack::Search;
use net::{Net, Refusal, Refused, is_orderly};
use obligations::state::Due;
use obligations::{POSITIONS, trace};
use walks::check_lent;

// The replay of a trace in a net. Found: the sequence is at the buffer's front. No other answer changes the buffer.
pub fn replay(net: Net, trace: &[u32], budget: u64, out: &mut [u32]) -> Result<Outcome, Refused>
    ensures { ReplayDone net trace.now budget result out.old out.new }
{
    if !is_orderly(&net) {
        return Err(Refusal::Disorderly.at(0));
    }
    if !has_room(trace.len(), out.len()) {
        return Err(Refusal::OutsideLimits.at(0));
    }
    if let Some(place) = trace::first_no_activity(trace, 1, trace.len()) {
        return Err(Refusal::NoActivity.at(place));
    }
    // By `match` and not by `?`, so that the edit that calls 19 by another number changes a value here, and not the form.
    match check_lent(&net) {
        Ok(_) => Ok(replay_lent(&net, trace, budget, out)),
        Err(refused) => Err(refused),
    }
}

// Whether a trace of n entries isn't too long, and a buffer of `room` words has three for each position.
fn has_room(n: usize, room: usize) -> bool
    ensures { result ≡ has_room n room }
{
    n <= POSITIONS && 3 * n <= room
}

// The replay of a trace in a lent net that has passed the check: nothing is left to refuse, and nothing is copied.
pub fn replay_lent(net: &Net, trace: &[u32], budget: u64, out: &mut [u32]) -> Outcome
    requires sides { SidesFit net.now.inputs × SidesFit net.now.outputs }
    requires trace_with_room { TraceWithRoom trace.now (length out.old) }
    ensures { CheckedDone net.now trace.now budget result out.old out.new }
{
    if !trace::is_shaped(trace, 1, trace.len(), net.start, net.end) {
        return Outcome::Failed { trials: 0 };
    }
    let search = Search { net, trace, budget };
    search.inputs(0, 0, &mut Due::new(), out)
}
