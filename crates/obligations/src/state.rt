// The state of pending obligations: a count for each pair (p, q), how often q is still due because of p. The counts of one q
// stand together, at q * 32 + p. A caller makes one state, and the steps change it in place.
//
// These functions are called by the layers above and by nobody else. Their `requires` are those that a caller has at
// hand: the activity is one, no count is so high that a byte couldn't hold one more (`State most_due`), since a count is at most the
// number of positions so far, and the total of counts is what the step before reported. They are clauses and no types. The words of
// a trace or sequence may be any and are tested once, at the call, and a type of such words would be made anew of each. That counts
// have room for one more is no invariant of a state, since an `add` may leave one that hasn't.

ghost use Rattle.std.specs.Prelude.{◌≡◌, true, not, eqb, List, ℕ, ◌<◌, length, get_or};
ghost use Rattle.obligations.specs.Limits.{activities, pairs};
ghost use Rattle.obligations.specs.Sets.{member};
ghost use Rattle.obligations.specs.State.{nothing, places_left, inputs, outputs, all_due, lowered, raised, Causes, possible, taken, added, covers, unadded, untaken, before, all_zero, total, State, most_due, step_says, step_gives};

use crate::places::Places;
use crate::sequence::Binding;
use crate::sets::{is_subset, members, size};
use crate::{ACTIVITIES, PAIRS};
use std::marker::Model;
use std::simd::prelude::*;

// The test for an all-zero state goes by parts of the counts: how many there are, and how long each is.
const PARTS: usize = 4;

const PART: usize = PAIRS / PARTS;

// What is due: the counts of all pairs. A caller may keep a state, and compare two.
#[derive(Clone, Copy, PartialEq, Eq)]
pub struct Due {
    counts: [u8; PAIRS],
}

// A contract sees a state as the list of its counts.
impl Model for Due {
    ghost Value = { List ℕ };

    ghost view = { λ s. s.counts };

    ghost invariant = { λ s. length s.counts ≡ pairs };

    ghost inverse = { λ counts. record { counts = counts } };
}

impl Due {
    // The state in which nothing is due.
    pub fn new() -> Due
        ensures { result ≡ nothing }
    {
        Due { counts: [0; PAIRS] }
    }

    // The state with these counts, of which each may be any.
    pub fn of(counts: [u8; PAIRS]) -> Due
        ensures { result ≡ counts }
    {
        Due { counts }
    }

    // The counts: that of (p, q) is at q * 32 + p.
    pub fn counts(&self) -> &[u8; PAIRS]
        ensures { result.now ≡ self.now }
    {
        &self.counts
    }

    // The activities because of which a is due.
    pub fn causes(&self, a: u32) -> u32
        requires { a < activities }
        ensures { Causes self.now a result }
    {
        let from = (a * ACTIVITIES) as usize;
        nonzero(&self.counts[from..from + ACTIVITIES as usize])
    }

    // Whether the binding of a with the input set x is possible: every (p, a) with p in x has a count of at least 1.
    pub fn is_possible(&self, a: u32, x: u32) -> bool
        requires { a < activities }
        ensures { result ≡ possible self.now a x }
    {
        is_subset(x, self.causes(a))
    }

    // Takes one from each (p, a) with p in x.
    pub fn take(&mut self, a: u32, x: u32)
        requires is_activity { a < activities }
        requires is_possible { possible self.old a x ≡ true }
        ensures { self.new ≡ taken self.old a x }
    {
        lower(&mut self.counts, inputs(a, x));
    }

    // Adds one to each (a, q) with q in y.
    pub fn add(&mut self, a: u32, y: u32)
        requires is_activity { a < activities }
        requires has_room { State most_due self.old }
        ensures { self.new ≡ added self.old a y }
    {
        raise(&mut self.counts, outputs(a, y));
    }

    // Undoes `take`.
    pub fn undo_take(&mut self, a: u32, x: u32)
        requires is_activity { a < activities }
        requires has_room { State most_due self.old }
        ensures { self.new ≡ untaken self.old a x }
    {
        raise(&mut self.counts, inputs(a, x));
    }

    // Undoes `add`.
    pub fn undo_add(&mut self, a: u32, y: u32)
        requires is_activity { a < activities }
        requires is_covered { covers self.old a y ≡ true }
        ensures { self.new ≡ unadded self.old a y }
    {
        lower(&mut self.counts, outputs(a, y));
    }

    // Takes the step of a binding and reports the total of counts after it, if the binding is possible; else changes nothing.
    // What its output set adds can't serve its own input set: that is tested and taken first. The total is carried, not summed:
    // `pending` is the one before the step.
    pub fn step(&mut self, pending: u32, binding: Binding) -> Option<u32>
        requires is_activity { binding.activity < activities }
        requires has_room { State most_due self.old }
        requires is_total { pending ≡ total self.old }
        ensures reports { result ≡ step_says self.old binding.activity binding.input binding.output }
        ensures leaves { self.new ≡ step_gives self.old binding.activity binding.input binding.output }
    {
        let Binding {
            activity: a,
            input: x,
            output: y,
        } = binding;
        if !self.is_possible(a, x) {
            return None;
        }
        self.take(a, x);
        self.add(a, y);
        Some(pending - size(x) + size(y))
    }

    // Brings back the state before a possible step of a binding.
    pub fn undo(&mut self, binding: Binding)
        requires is_activity { binding.activity < activities }
        requires has_room { State most_due self.old }
        requires is_covered { covers self.old binding.activity binding.output ≡ true }
        ensures { self.new ≡ before self.old binding.activity binding.input binding.output }
    {
        self.undo_add(binding.activity, binding.output);
        self.undo_take(binding.activity, binding.input);
    }

    // Whether every count is zero. Most states that are tested have something due, and mostly in the first part already. The parts are
    // cut by index: of `chunks_exact` the replay would have a division.
    pub fn is_zero(&self) -> bool
        ensures { result ≡ all_zero self.now }
    {
        let counts = &self.counts;
        (0..PARTS).all(|k| is_zero_part(&counts[PART * k..PART * (k + 1)]))
    }
}

// Whether every count of a part is zero. No way out of the fold, so that it is compiled to vector operations.
fn is_zero_part(counts: &[u8]) -> bool
    ensures { result ≡ all_zero counts.now }
{
    counts.iter().fold(0, |seen, n| seen | *n) == 0
}

// The places of (p, a) for p in x.
fn inputs(a: u32, x: u32) -> Places
    requires { a < activities }
    ensures { places_left result ≡ inputs a x }
{
    Places {
        base: a * ACTIVITIES,
        stride: 1,
        members: members(x),
    }
}

// The places of (a, q) for q in y.
fn outputs(a: u32, y: u32) -> Places
    requires { a < activities }
    ensures { places_left result ≡ outputs a y }
{
    Places {
        base: a,
        stride: ACTIVITIES,
        members: members(y),
    }
}

// The places of the 32 counts that aren't zero. By a vector, which compares them all at once. Its mask has a bit for each count, so
// that the cast loses none.
fn nonzero(counts: &[u8]) -> u32
    requires { length counts.now ≡ activities }
    ensures { (k : ℕ) → k < activities → member result k ≡ not (eqb (get_or counts.now k 0) 0) }
{
    let lanes = u8x32::from_slice(counts);
    lanes.simd_ne(u8x32::splat(0)).to_bitmask() as u32
}

// Takes one from each of the places. Not one function with `raise`: the two ask different things of the counts, which a
// shared walk with a closure would have to ask of the closure.
fn lower(counts: &mut [u8; PAIRS], places: Places)
    requires { all_due counts.old (places_left places) ≡ true }
    ensures { counts.new ≡ lowered counts.old (places_left places) }
{
    for i in places {
        counts[i] -= 1;
    }
}

// Adds one to each of the places.
fn raise(counts: &mut [u8; PAIRS], places: Places)
    requires { State most_due counts.old }
    ensures { counts.new ≡ raised counts.old (places_left places) }
{
    for i in places {
        counts[i] += 1;
    }
}
