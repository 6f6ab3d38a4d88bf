// The net gains a sequence's sets and counts their uses, for learn and follow.

ghost use Rattle.std.specs.Prelude.{◌≡◌, true, ◌<◌, IfOk};
ghost use Rattle.obligations.specs.Limits.{activities};
ghost use Rattle.obligations.specs.Sequence.{bindings};
ghost use Rattle.obligations.specs.Tests.{indicator};
ghost use Rattle.net.specs.Limits.{places};
ghost use Rattle.net.specs.Inner.{OrderlySides};
ghost use Rattle.net.specs.Orderly.{orderly};
ghost use Rattle.sequences.specs.Gain.{raised_at, topped_at, gained};
ghost use Rattle.sequences.specs.Learn.{learn_means, gain_says};
ghost use Rattle.sequences.specs.Inner.{WithinLimits, SetGained, GainLeft};

use net::putting::put_counted;
use net::{MOST_USES, Net, PLACES, Refusal, Refused, Sides};
use obligations::sequence::bindings;

// What a position's set does to its side, in numbers that add up over the positions: how many sets it adds, and how many counts are
// at their top and can't be raised, each 0 or 1. `topped` is a number, and no `bool`, because the definition counts
// (`topped_counts`).
#[derive(Clone, Copy)]
struct Added {
    sets: u32,
    topped: u32,
}

// Puts the positions' sets on their sides and counts their uses. Where a side would exceed its sets or a count its top the net is left
// as it was given: it is copied once for that, and not for each position.
pub fn gain(net: &mut Net, words: &[u32]) -> Result<u32, Refused>
    requires net_value { orderly net.old ≡ true }
    requires within_limits { WithinLimits words.now }
    ensures { GainLeft net.old (bindings words.now) result net.new }
{
    let given = *net;
    let answer = gain_in(net, words);
    if answer.is_err() {
        *net = given;
    }
    answer
}

// The same, but a refusal leaves the net with some of the sets.
fn gain_in(net: &mut Net, words: &[u32]) -> Result<u32, Refused>
    requires net_value { orderly net.old ≡ true }
    requires within_limits { WithinLimits words.now }
    ensures says { learn_means result ≡ gain_says net.old (bindings words.now) }
    ensures gives { IfOk result (λ new. net.new ≡ gained net.old (bindings words.now)) }
{
    let mut new: u32 = 0;
    let mut topped: u32 = 0;
    for binding in bindings(words) {
        let a = binding.activity;
        let input = gain_set(&mut net.inputs, net.start, a, binding.input)?;
        let output = gain_set(&mut net.outputs, net.end, a, binding.output)?;
        new += input.sets + output.sets;
        topped += input.topped + output.topped;
    }
    if topped != 0 {
        return Err(Refusal::CountTooHigh.at(0));
    }
    Ok(new)
}

// Puts m on activity a's side and counts its use. A put that refuses is answered as a full side: misplaced sets were refused before.
fn gain_set(sides: &mut Sides, empty: u32, a: u32, m: u32) -> Result<Added, Refusal>
    requires orderly { OrderlySides sides.old empty }
    requires activity { a < activities }
    ensures { SetGained sides.old empty a m result sides.new }
{
    let Ok(placed) = put_counted(sides, empty, a, m) else {
        return Err(Refusal::FullSide);
    };
    let topped = raise(&mut sides.counts, placed.at);
    Ok(Added {
        sets: u32::from(placed.new),
        topped: u32::from(topped),
    })
}

// Raises the count at a place by one, and says whether it is at its top, where it stays.
fn raise(counts: &mut [u32; PLACES], at: usize) -> bool
    requires { at < places }
    ensures tops { indicator result ≡ topped_at counts.old at }
    ensures counts_are { counts.new ≡ raised_at counts.old at }
{
    let count = counts[at];
    if count < MOST_USES {
        counts[at] = count + 1;
        false
    } else {
        true
    }
}
