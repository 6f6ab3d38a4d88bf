// Judge (paper 01, "Net check and judge").

ghost use Rattle.std.specs.Prelude.{◌≡◌, true};
ghost use Rattle.obligations.specs.Sequence.{bindings};
ghost use Rattle.obligations.specs.Tests.{position_of};
ghost use Rattle.net.specs.Orderly.{orderly};
ghost use Rattle.sequences.specs.Judge.{judge_means, first_missing, judge_says};
ghost use Rattle.sequences.specs.Inner.{WithinLimits};

use crate::limits::sequence_limits;
use crate::running::run;
use net::{Net, Refusal, Refused, is_orderly};
use obligations::sequence::bindings;
use obligations::trace::is_shaped;
use walks::check_lent;

// Accepts a sequence exactly if the net passes and the sequence is valid in it, and then gives its peak: the largest total of
// counts after any position.
pub fn judge(net: Net, sequence: &[u32]) -> Result<u32, Refused>
    ensures { judge_means result ≡ judge_says net sequence.now }
{
    if !is_orderly(&net) {
        return Err(Refusal::Disorderly.at(0));
    }
    let n = sequence_limits(sequence)?;
    check_lent(&net)?;
    if !is_shaped(sequence, 3, n, net.start, net.end) {
        return Err(Refusal::WrongEnds.at(0));
    }
    if let Some(place) = first_missing(&net, sequence) {
        return Err(Refusal::MissingSet.at(place));
    }
    run(sequence)
}

// The first position whose X or Y isn't in the net. At each position its activity's input sets are searched for X and then its
// output sets for Y; a search that doesn't find its set leaves the loop over positions, as 01 names it: two inner searches, left by a
// label, and no call of `contains`.
fn first_missing(net: &Net, words: &[u32]) -> Option<u32>
    requires net_value { orderly net.now ≡ true }
    requires within_limits { WithinLimits words.now }
    ensures { result ≡ position_of (first_missing net.now (bindings words.now)) }
{
    let mut missing: Option<u32> = None;
    // In 32 bits, not by `enumerate`: of a count as wide as the length a compiler makes a division of the length by 3.
    'positions: for (position, binding) in (1u32..).zip(bindings(words)) {
        'input: {
            for x in net.inputs.sets(binding.activity) {
                if *x == binding.input {
                    break 'input;
                }
            }
            missing = Some(position);
            break 'positions;
        }
        'output: {
            for y in net.outputs.sets(binding.activity) {
                if *y == binding.output {
                    break 'output;
                }
            }
            missing = Some(position);
            break 'positions;
        }
    }
    missing
}
