// Tests on the activities of a trace, or of a sequence: n numbers in a list of words, `stride` words apart, which is 1 in
// a trace and 3 in a sequence. Words and a stride and not an iterator, of which each clause would have to say what it yields.

ghost use Rattle.std.specs.Prelude.{◌≡◌, ◌*◌, ◌^◌, ◌<◌, ◌≤◌, length, get_or};
ghost use Rattle.obligations.specs.Tests.{position_of};
ghost use Rattle.obligations.specs.Trace.{first_no_activity, shaped};

use crate::ACTIVITIES;

// The first position, counted from 1, with a number above 31. Positions have 32 bits, as n has: a
// cast, as the check proves that nothing is lost.
pub fn first_no_activity(words: &[u32], stride: usize, n: usize) -> Option<u32>
    requires { (0 < stride) × (stride * n ≤ length words.now) × (n < 2 ^ 32) }
    ensures { result ≡ position_of (first_no_activity n (λ i. get_or words.now (stride * i) 0)) }
{
    (0..n)
        .find(|i| ACTIVITIES <= words[stride * *i])
        .map(|i| (i + 1) as u32)
}

// Whether there are at least two positions, and start and end stand first, last and nowhere else.
pub fn is_shaped(words: &[u32], stride: usize, n: usize, start: u32, end: u32) -> bool
    requires { (0 < stride) × (stride * n ≤ length words.now) }
    ensures { result ≡ shaped start end n (λ i. get_or words.now (stride * i) 0) }
{
    n >= 2
        && (0..n).all(|i| {
            let a = words[stride * i];
            (a == start) == (i == 0) && (a == end) == (i + 1 == n)
        })
}
