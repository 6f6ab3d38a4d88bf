// Calls on sequences of bindings and on traces (paper 01, "Learning and containment", "Net check and judge", "Follow"):
// judge, learn and follow. Each call takes every net and every list of words and refuses what the paper refuses.

#![tactic(auto)]

mod following;
mod gaining;
mod judging;
mod learning;
mod limits;
mod running;

pub use following::follow;
pub use judging::judge;
pub use learning::learn;
