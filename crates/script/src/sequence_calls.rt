// Commands that call judge, learn, follow and replay. The words of the sequence or trace are the last numbers of the line.

use machine::answer::{Answer, Reply, answered};
use machine::buffers::{fill, is_untouched};
use machine::numbers::{NUMBERS, words_from};
use machine::registers::{Register, Registers};
use net::{Net, Refused};
use search::Outcome;

// judge R W W ..: judges the sequence of these words.
pub fn judge(registers: &Registers, r: Register, words: &[u32]) -> Answer<'static> {
    let judged = sequences::judge(*registers.get(r), words);
    answered(judged, |_| Answer::Done)
}

// peak R W W ..: the same; the answer has the peak.
pub fn peak(registers: &Registers, r: Register, words: &[u32]) -> Answer<'static> {
    let judged = sequences::judge(*registers.get(r), words);
    answered(judged, |peak| Answer::Value(u64::from(peak)))
}

// learn R W W ..: learns the sequence; R becomes what it returns.
pub fn learn(registers: &mut Registers, r: Register, words: &[u32]) -> Answer<'static> {
    let learned = registers.keep(r, sequences::learn(*registers.get(r), words));
    answered(learned, |new| Answer::Value(u64::from(new)))
}

// follow R T T ..: follows the trace; R becomes what it returns.
pub fn follow(registers: &mut Registers, r: Register, trace: &[u32]) -> Answer<'static> {
    let followed = registers.keep(r, sequences::follow(*registers.get(r), trace));
    answered(followed, |new| Answer::Value(u64::from(new)))
}

// replay R BUDGET N T T ..: replays the trace with a buffer of N words.
pub fn replay<'w>(
    registers: &Registers,
    numbers: &[u64],
    words: &'w mut [u32],
) -> Option<Reply<'w>> {
    let [r, budget, room, rest @ ..] = numbers else {
        return None;
    };
    let r = Register::try_from(*r).ok()?;
    let lent = words.get_mut(..*room as usize)?;
    let mut buf = [0u32; NUMBERS];
    let trace = words_from(rest, &mut buf)?;
    replay_with(registers.get(r), trace, *budget, lent)
}

// Replays a trace with this buffer. A sequence that is found has three words for each of the trace's positions. It isn't longer than
// the buffer; if one were, the line would be answered as no command.
fn replay_with<'w>(
    net: &Net,
    trace: &[u32],
    budget: u64,
    lent: &'w mut [u32],
) -> Option<Reply<'w>> {
    fill(lent);
    let replayed = search::replay(*net, trace, budget, lent);
    let written = match replayed {
        Ok(Outcome::Found { .. }) => 3 * trace.len(),
        _ => 0,
    };
    let changed = !is_untouched(lent, written);
    let sequence = lent.get(..written)?;
    Some(Reply {
        answer: answered(replayed, |outcome| replay_answer(outcome, sequence)),
        changed,
    })
}

fn replay_answer(outcome: Outcome, sequence: &[u32]) -> Answer<'_> {
    match outcome {
        Outcome::Found { trials } => Answer::Found { trials, sequence },
        Outcome::Failed { trials } => Answer::Failed { trials },
        Outcome::Spent { trials } => Answer::Spent { trials },
    }
}
