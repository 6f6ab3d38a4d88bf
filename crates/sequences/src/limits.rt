// Refusals 3 and 4 of sequences and traces, for judge, learn and follow. That words are within the limits is a clause of what is
// called then, `WithinLimits`, and no type: the words stay the caller's slice, which may be any and is tested here once.

ghost use Rattle.std.specs.Prelude.{◌≡◌, ◌<◌, ◌/◌, IfOk, length};
ghost use Rattle.obligations.specs.Sequence.{bindings};
ghost use Rattle.net.specs.Refusals.{Says};
ghost use Rattle.sequences.specs.Limits.{within_limits, trace_within_limits};
ghost use Rattle.sequences.specs.Inner.{says_after, WithinLimits, TraceWithinLimits};

use net::{Refusal, Refused};
use obligations::trace::first_no_activity;
use obligations::{POSITIONS, SEQUENCE_WORDS};

// How many positions the words of a sequence have: a multiple of three words, within the limit, activities below 32.
pub fn sequence_limits(words: &[u32]) -> Result<usize, Refused>
    ensures says { (rest : Says) → says_after result rest ≡ within_limits words.now rest }
    ensures counts { IfOk result (λ n. n ≡ length (bindings words.now)) }
    ensures within { IfOk result (λ n. WithinLimits words.now) }
{
    let size = words.len();
    if SEQUENCE_WORDS < size {
        return Err(Refusal::OutsideLimits.at(0));
    }
    let n = third(size);
    if 3 * n != size {
        return Err(Refusal::OutsideLimits.at(0));
    }
    match first_no_activity(words, 3, n) {
        Some(place) => Err(Refusal::NoActivity.at(place)),
        None => Ok(n),
    }
}

// A third of k, rounded down. No division (02, (v)): for a browser a division stays one, and a loop that counts in threes may become
// one, so k is multiplied by 171 / 512. That is above 1 / 3 by 1 / 1,536: below 512 less than a third in all, too little to reach the
// next whole number.
fn third(k: usize) -> usize
    requires { k < 512 }
    ensures { result ≡ k / 3 }
{
    k * 171 >> 9
}

// Whether a trace is within the limit, its activities below 32.
pub fn trace_limits(trace: &[u32]) -> Result<(), Refused>
    ensures says { (rest : Says) → says_after result rest ≡ trace_within_limits trace.now rest }
    ensures within { IfOk result (λ done. TraceWithinLimits trace.now) }
{
    let n = trace.len();
    if POSITIONS < n {
        return Err(Refusal::OutsideLimits.at(0));
    }
    match first_no_activity(trace, 1, n) {
        Some(place) => Err(Refusal::NoActivity.at(place)),
        None => Ok(()),
    }
}
