// Sets of activities, and the state of pending obligations with the step that changes it (paper 01, "The net and its
// sets" and "Obligations and the step"). The lowest layer: what stands above uses only these contracts and the laws
// about the definitions in specs/.

#![tactic(auto)]

mod places;
pub mod sequence;
pub mod sets;
pub mod state;
pub mod trace;

// Activities are the numbers below this. They are words and no type of their own: the words of nets, sequences and traces may be any,
// and are tested once, at the call. What is called then asks in its contract that an activity is one.
pub const ACTIVITIES: u32 = 32;

// The pairs (p, q) of activities: how many counts a state has.
pub const PAIRS: usize = (ACTIVITIES * ACTIVITIES) as usize;

// A sequence or a trace has at most this many positions (02, (ii)).
pub const POSITIONS: usize = 96;

// The words of the longest sequence, three a position.
pub const SEQUENCE_WORDS: usize = 3 * POSITIONS;
