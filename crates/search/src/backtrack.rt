// The search that goes back, over a lent net: the recursion on the remaining trace that 01 names. The state is changed in place: one
// method takes for an input set, the other adds for an output set, and each undoes its half of the step when the call behind it has
// returned. The buffer is written on the way back from a sequence that was found, and at no other time.

ghost use Rattle.std.specs.Prelude.{◌≡◌, ◌+◌, ◌*◌, ◌<◌, ◌≤◌, ℕ, length, get_or};
ghost use Rattle.std.specs.List.{position_or_len};
ghost use Rattle.obligations.specs.Limits.{activities, positions};
ghost use Rattle.obligations.specs.State.{all_zero, possible, State};
ghost use Rattle.net.specs.Inner.{SidesFit};
ghost use Rattle.search.specs.Search.{later, at_end};
ghost use Rattle.search.specs.Replay.{outcome_means, end_says};
ghost use Rattle.search.specs.declared.Outcome.TheVariants.{Spent};
ghost use Rattle.search.specs.Backtrack.{search_lent, search_taken, Searched};

use crate::Outcome;
use net::Net;
use obligations::sequence::{Binding, write_binding};
use obligations::sets::is_subset;
use obligations::state::Due;

// What a search reads: it changes none of it.
#[derive(Clone, Copy)]
pub struct Search<'a> {
    pub net: &'a Net,
    pub trace: &'a [u32],
    pub budget: u64,
    ghost inputs_fit: { SidesFit net.now.inputs },
    ghost outputs_fit: { SidesFit net.now.outputs },
    ghost few_positions: { length trace.now ≤ positions },
    ghost activities_only: { (i : ℕ) → i < length trace.now → get_or trace.now i 0 < activities },
}

impl Search<'_> {
    // The search from position `at` on, in the state `due`, with `trials` trials made before: the input sets in their
    // order. An input set that isn't possible fails with every output set, so the pairs of all those up to the next possible
    // one are counted at once.
    #[cycle(search)]
    pub fn inputs(&self, at: usize, trials: u64, due: &mut Due, out: &mut [u32]) -> Outcome
        requires room { 3 * length self.now.trace.now ≤ length out.old }
        requires position { at ≤ length self.now.trace.now }
        requires within { trials ≤ self.now.budget }
        requires state { State at due.old }
        ensures { Searched self.now.budget (later trials (search_lent self.now.net.now self.now.trace.now at due.old)) (3 * at) result due.old due.new out.old out.new }
    {
        if at == self.trace.len() {
            return at_end(due, trials);
        }
        let a = self.trace[at];
        let width = self.net.outputs.sets(a).len() as u64;
        let mut rest = self.net.inputs.sets(a);
        let mut count = trials;
        // A `for` would be no plainer: a turn passes over as many sets as aren't possible, and what is left is walked on.
        loop {
            let (passed, left) = rest.split_at(next_possible(due, a, rest));
            let pairs = passed.len() as u64 * width;
            if self.budget - count < pairs {
                return self.spent();
            }
            count += pairs;
            let Some((x, more)) = left.split_first() else {
                return Outcome::Failed { trials: count };
            };
            due.take(a, *x);
            let tried = self.outputs(at, *x, count, due, out);
            due.undo_take(a, *x);
            let Outcome::Failed { trials: k } = tried else {
                return tried;
            };
            count = k;
            rest = more;
        }
    }

    // The search from position `at` on with the input set x, for which `due` has been lowered already: the output sets in
    // their order.
    #[cycle(search)]
    fn outputs(&self, at: usize, x: u32, trials: u64, due: &mut Due, out: &mut [u32]) -> Outcome
        requires room { 3 * length self.now.trace.now ≤ length out.old }
        requires position { at < length self.now.trace.now }
        requires within { trials ≤ self.now.budget }
        requires state { State at due.old }
        ensures { Searched self.now.budget (later trials (search_taken self.now.net.now self.now.trace.now at x due.old)) (3 * at) result due.old due.new out.old out.new }
    {
        let a = self.trace[at];
        let sets = self.net.outputs.sets(a);
        let mut count = trials;
        for y in sets {
            if count == self.budget {
                return self.spent();
            }
            due.add(a, *y);
            let next = self.inputs(at + 1, count + 1, due, out);
            due.undo_add(a, *y);
            match next {
                Outcome::Failed { trials: k } => {
                    count = k;
                }
                Outcome::Found { .. } => {
                    let binding = Binding {
                        activity: a,
                        input: x,
                        output: *y,
                    };
                    write_binding(out, at, binding);
                    return next;
                }
                Outcome::Spent { .. } => {
                    return next;
                }
            }
        }
        Outcome::Failed { trials: count }
    }

    // A trial more would exceed the budget.
    fn spent(&self) -> Outcome
        ensures { result ≡ Spent self.now.budget }
    {
        let trials = self.budget;
        Outcome::Spent { trials }
    }
}

// How many of activity a's sets stand before the first that is possible; all of them if none is. Most sets that a search looks at
// aren't possible, so the activities because of which a is due are gathered once, and each set is only compared with them.
fn next_possible(due: &Due, a: u32, sets: &[u32]) -> usize
    requires { a < activities }
    ensures { result ≡ position_or_len (λ x. possible due.now a x) sets.now }
{
    let causes = due.causes(a);
    sets.iter()
        .position(|x| is_subset(*x, causes))
        .unwrap_or(sets.len())
}

// Past the last position: found if nothing is due any more.
fn at_end(due: &Due, trials: u64) -> Outcome
    ensures { outcome_means result ≡ end_says (later trials (at_end (all_zero due.now))) }
{
    if due.is_zero() {
        Outcome::Found { trials }
    } else {
        Outcome::Failed { trials }
    }
}
