// Follow (paper 01, "Follow"): learns, from a trace, the sequence in which each activity hands one obligation to the next.

ghost use Rattle.std.specs.Prelude.{◌≡◌, true, ◌<◌, IfOk, length};
ghost use Rattle.std.proofs.lemmas.List.Edits.{sets};
ghost use Rattle.obligations.specs.Sequence.{words};
ghost use Rattle.net.specs.Orderly.{orderly};
ghost use Rattle.sequences.specs.Learn.{gain_says};
ghost use Rattle.sequences.specs.Follow.{followed, follow_says, FollowDone, FollowLeft};
ghost use Rattle.sequences.specs.Inner.{says_after, TraceWithinLimits, next_set};

use crate::gaining::gain;
use crate::limits::trace_limits;
use net::{Net, Refusal, Refused, Returned, is_orderly};
use obligations::SEQUENCE_WORDS;
use obligations::sequence::{Binding, write_binding};
use obligations::sets::single;
use obligations::trace::is_shaped;

// Learns the sequence whose X is the activity before, empty at the first, and whose Y is the activity after, empty at the
// last. A refused call returns the net given.
pub fn follow(mut net: Net, trace: &[u32]) -> Returned<u32>
    ensures { FollowDone net trace.now result }
{
    let answer = follow_in(&mut net, trace);
    Returned { answer, net }
}

// Follow, on a net in place.
fn follow_in(net: &mut Net, trace: &[u32]) -> Result<u32, Refused>
    ensures { FollowLeft net.old trace.now result net.new }
{
    may_follow(net, trace)?;
    let mut sequence = [0u32; SEQUENCE_WORDS];
    write_followed(trace, &mut sequence);
    gain(net, &sequence[..3 * trace.len()])
}

// The refusals of follow up to 7, which come before those of a sequence that doesn't fit or can't be counted.
fn may_follow(net: &Net, trace: &[u32]) -> Result<(), Refused>
    ensures says { says_after result (gain_says net.now (followed trace.now)) ≡ follow_says net.now trace.now }
    ensures is_orderly { IfOk result (λ done. orderly net.now ≡ true) }
    ensures within_limits { IfOk result (λ done. TraceWithinLimits trace.now) }
{
    if !is_orderly(net) {
        return Err(Refusal::Disorderly.at(0));
    }
    trace_limits(trace)?;
    if !is_shaped(trace, 1, trace.len(), net.start, net.end) {
        return Err(Refusal::WrongEnds.at(0));
    }
    Ok(())
}

// Writes the trace's sequence to the front of the buffer.
fn write_followed(trace: &[u32], out: &mut [u32; SEQUENCE_WORDS])
    requires { TraceWithinLimits trace.now }
    ensures { out.new ≡ sets out.old 0 (words (followed trace.now)) }
{
    let mut previous: u32 = 0;
    for (i, a) in trace.iter().enumerate() {
        let binding = Binding {
            activity: *a,
            input: previous,
            output: next_set(trace, i),
        };
        write_binding(out, i, binding);
        previous = single(*a);
    }
}

// The set of the activity after position i alone, and the empty set after the last.
fn next_set(trace: &[u32], i: usize) -> u32
    requires { i < length trace.now }
    ensures { result ≡ next_set trace.now i }
{
    trace.get(i + 1).map_or(0, |a| single(*a))
}
