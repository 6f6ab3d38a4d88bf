// What scripts of calls run on: registers of net records, buffers that are lent to a call, the numbers of a line, and answers
// with how they are written. The crate `script` has the commands. This is a test tool.

#![tactic(auto)]

pub mod answer;
pub mod buffers;
pub mod numbers;
pub mod output;
pub mod registers;
