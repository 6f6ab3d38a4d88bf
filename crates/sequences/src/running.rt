// A sequence run from the state in which nothing is due, for judge and learn.

ghost use Rattle.std.specs.Prelude.{◌≡◌};
ghost use Rattle.obligations.specs.Sequence.{bindings};
ghost use Rattle.sequences.specs.Judge.{judge_means, run_says};
ghost use Rattle.sequences.specs.Inner.{WithinLimits};

use net::{Refusal, Refused};
use obligations::sequence::bindings;
use obligations::state::Due;

// The peak of a sequence, whose bindings are taken one after another: refused at the first that isn't possible, and where
// obligations are left at the end. Each step reports the total of counts after it: the largest is the peak, and the last tells
// whether anything is left, so that the state needs no scan.
pub fn run(words: &[u32]) -> Result<u32, Refused>
    requires { WithinLimits words.now }
    ensures { judge_means result ≡ run_says (bindings words.now) }
{
    let mut due = Due::new();
    let mut total: u32 = 0;
    let mut peak: u32 = 0;
    // In 32 bits, not by `enumerate`: of a count as wide as the length a compiler makes a division of the length by 3.
    for (position, binding) in (1u32..).zip(bindings(words)) {
        let Some(after) = due.step(total, binding) else {
            return Err(Refusal::NotPossible.at(position));
        };
        total = after;
        peak = peak.max(total);
    }
    if total != 0 {
        return Err(Refusal::LeftOver.at(0));
    }
    Ok(peak)
}
