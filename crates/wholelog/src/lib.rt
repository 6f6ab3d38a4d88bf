// Whole logs, replayed on a net (paper 02, (vi)): reading a log for a fault anywhere in it, its rows one after the other, and the
// share of fitting sessions. The net is checked once and lent to each replay, and the log is read where it lies: nothing is copied
// for a row but its trace.

#![tactic(auto)]

mod rows;
mod sharing;

pub use rows::{Replayed, Rows, check_log};
pub use sharing::{Figures, RefusedOf, share, share_lent};
