// Learn (paper 01, "Learning and containment").

ghost use Rattle.std.specs.Prelude.{◌≡◌, true, IfOk, length};
ghost use Rattle.obligations.specs.Sequence.{bindings};
ghost use Rattle.obligations.specs.Tests.{position_of};
ghost use Rattle.net.specs.Orderly.{orderly};
ghost use Rattle.sequences.specs.Learn.{first_wrongly_empty, gain_says, learn_says, LearnDone, LearnLeft};
ghost use Rattle.sequences.specs.Inner.{says_after, WithinLimits};

use crate::gaining::gain;
use crate::limits::sequence_limits;
use crate::running::run;
use net::{Net, Refusal, Refused, Returned, is_orderly};
use obligations::sequence::bindings;
use obligations::trace::is_shaped;

// Learns a sequence, from whoever proposes it: the net gains exactly its X and Y sets, and the answer is the number that
// were new. A refused call returns the net given.
pub fn learn(mut net: Net, sequence: &[u32]) -> Returned<u32>
    ensures { LearnDone net sequence.now result }
{
    let answer = learn_in(&mut net, sequence);
    Returned { answer, net }
}

// Learn, on a net in place.
fn learn_in(net: &mut Net, words: &[u32]) -> Result<u32, Refused>
    ensures { LearnLeft net.old words.now result net.new }
{
    may_learn(net, words)?;
    gain(net, words)
}

// The refusals of learn up to 11, which come before those of a sequence that doesn't fit or can't be counted.
fn may_learn(net: &Net, words: &[u32]) -> Result<(), Refused>
    ensures says { says_after result (gain_says net.now (bindings words.now)) ≡ learn_says net.now words.now }
    ensures is_orderly { IfOk result (λ done. orderly net.now ≡ true) }
    ensures within_limits { IfOk result (λ done. WithinLimits words.now) }
{
    if !is_orderly(net) {
        return Err(Refusal::Disorderly.at(0));
    }
    let n = sequence_limits(words)?;
    if !is_shaped(words, 3, n, net.start, net.end) {
        return Err(Refusal::WrongEnds.at(0));
    }
    if let Some(place) = first_wrongly_empty(words, n) {
        return Err(Refusal::WronglyEmpty.at(place));
    }
    run(words)?;
    Ok(())
}

// The first position whose X or Y is empty or filled where it may not be: X is empty at the first of the n positions only, Y at the
// last.
fn first_wrongly_empty(words: &[u32], n: usize) -> Option<u32>
    requires within_limits { WithinLimits words.now }
    requires count { n ≡ length (bindings words.now) }
    ensures { result ≡ position_of (first_wrongly_empty (bindings words.now)) }
{
    // In 32 bits, not by `enumerate`, and the last told by n, not by the words' length: of a count as wide as the length, or compared
    // with it, a compiler makes a division of the length by 3.
    // A cast, as the check proves that nothing is lost.
    let last = n as u32;
    for (position, binding) in (1u32..).zip(bindings(words)) {
        let is_first = position == 1;
        let is_last = position == last;
        if (binding.input == 0) != is_first || (binding.output == 0) != is_last {
            return Some(position);
        }
    }
    None
}
