// The text of the tables: bytes, lines, fields, decimal numbers and member lists, read from slices of a lent text and written
// into a lent buffer. Nothing here knows of nets or logs.
//
// A reader takes the part of a text that it reads, as a slice. `Out` is a buffer and how much of it is written. A writer that takes
// any `Sink` says how long its text is too.

#![tactic(auto)]

pub mod bytes;
pub mod decimal;
pub mod fields;
pub mod lines;
pub mod members;
pub mod out;
pub mod sink;
