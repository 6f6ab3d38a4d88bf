// Net files: a net read from a text, and an orderly net written as one. Reading is one pass over the text that puts each row's
// set into a net in place. Writing finds the text's length first, so that a buffer that is too short is left alone.

#![tactic(auto)]

mod line;
mod read;
mod write;

pub use read::{read_net, refused_reading};
pub use write::write_net;

// A net file has at most this many bytes.
pub const NET_BYTES: usize = 131072;
