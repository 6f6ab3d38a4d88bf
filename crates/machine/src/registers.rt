// The four registers of net records. The words of a record are its start, its end, the lengths of the input lists and of the
// output lists by activity, the input masks and the output masks, the input counts and the output counts.

ghost use Rattle.std.specs.Prelude.{◌+◌, ◌<◌, length};
ghost use Rattle.machine.specs.declared.registers.TheConstants.{REGISTERS};

use crate::answer::Answer;
use net::{LISTS, Net, PLACES, Refused, Returned, Sides};

// So many registers there are.
pub const REGISTERS: usize = 4;

// So many words a record's lists have.
const LIST_WORDS: usize = 2 * LISTS + 4 * PLACES;

// So many words a record has: its start, its end and its lists.
const WORDS: usize = 2 + LIST_WORDS;

// Which register.
#[derive(Clone, Copy)]
pub struct Register {
    index: usize,
    ghost within: { index < REGISTERS },
}

// A number that is no register's.
#[derive(Clone, Copy)]
pub struct NoRegister;

impl TryFrom<u64> for Register {
    ghost use Rattle.std.specs.Prelude.{◌≡◌, ◌≤◌, MatchResult};

    type Error = NoRegister;

    ghost try_from_gives = { λ number r. MatchResult r (λ register. register.index ≡ number) (λ _. REGISTERS ≤ number) };

    fn try_from(number: u64) -> Result<Register, NoRegister> {
        let index = number as usize;
        if REGISTERS <= index {
            return Err(NoRegister);
        }
        Ok(Register { index })
    }
}

#[derive(Drop)]
pub struct Registers {
    nets: [Net; REGISTERS],
}

impl Registers {
    // Registers of the fresh net of 0 and 1.
    pub fn new() -> Registers {
        Registers {
            nets: [net::fresh(0, 1).net; REGISTERS],
        }
    }

    pub fn get(&self, r: Register) -> &Net {
        &self.nets[r.index]
    }

    pub fn set(&mut self, r: Register, net: Net) {
        self.nets[r.index] = net;
    }

    // Register r becomes the net that a call returned. Answers what the call did.
    pub fn keep<T>(&mut self, r: Register, returned: Returned<T>) -> Result<T, Refused> {
        self.set(r, returned.net);
        returned.answer
    }

    // poke R I V: word I of register R becomes V.
    pub fn poke(&mut self, r: Register, args: &[u32]) -> Option<Answer<'static>> {
        let [i, v] = *args else {
            return None;
        };
        let i = i as usize;
        if WORDS <= i {
            return None;
        }
        *word_of(&mut self.nets[r.index], i) = v;
        Some(Answer::Done)
    }

    // peek R I N: N words of register R from I on. `&mut self`, though nothing changes: `word_of` lends a word to be changed, and one
    // that lends it to be read would be its twin.
    pub fn peek<'w>(
        &mut self,
        r: Register,
        args: &[u32],
        buf: &'w mut [u32],
    ) -> Option<Answer<'w>> {
        let [i, n] = *args else {
            return None;
        };
        let i = i as usize;
        let n = n as usize;
        if WORDS < i + n {
            return None;
        }
        let words = buf.get_mut(..n)?;
        for (k, word) in words.iter_mut().enumerate() {
            *word = *word_of(&mut self.nets[r.index], i + k);
        }
        Some(Answer::Words(words))
    }
}

// Word i of a record.
fn word_of(net: &mut Net, i: usize) -> &mut u32
    requires { i < WORDS }
{
    match i {
        0 => &mut net.start,
        1 => &mut net.end,
        _ => word_of_sides(&mut net.inputs, &mut net.outputs, i - 2),
    }
}

// Word i of a record's lists.
fn word_of_sides<'a>(inputs: &'a mut Sides, outputs: &'a mut Sides, i: usize) -> &'a mut u32
    requires { i < LIST_WORDS }
{
    if i < 2 * LISTS {
        return word_in(&mut inputs.lengths, &mut outputs.lengths, i);
    }
    let k = i - 2 * LISTS;
    if k < 2 * PLACES {
        return word_in(&mut inputs.masks, &mut outputs.masks, k);
    }
    word_in(&mut inputs.counts, &mut outputs.counts, k - 2 * PLACES)
}

// Word i of two lists of words, the second behind the first.
fn word_in<'a>(first: &'a mut [u32], second: &'a mut [u32], i: usize) -> &'a mut u32
    requires { i < length first.old + length second.old }
{
    let n = first.len();
    if i < n {
        &mut first[i]
    } else {
        &mut second[i - n]
    }
}
