// Replay (paper 01, "Replay"): whether some choice of a net's bindings makes a trace valid, found by a search that goes
// back, within a budget of trials.

#![tactic(auto)]

mod backtrack;
mod replaying;

pub use replaying::{replay, replay_lent};

// How a replay, or its search from a position on, ended: with the number of all trials so far.
#[derive(Clone, Copy, Debug, PartialEq, Eq)]
pub enum Outcome {
    Found { trials: u64 },
    Failed { trials: u64 },
    Spent { trials: u64 },
}
