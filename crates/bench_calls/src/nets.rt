// Calls on a net. None here and in `texts` is inlined, so that what one takes doesn't depend on the others' code. The sequence is the
// papers' example: 003's Fig. 4, with its activities a to e as 0 to 4.

use crate::REFUSED;
use net::{Net, Side};

const SEQUENCE: [u32; 24] = [
    0, 0, 2, 1, 1, 6, 1, 2, 12, 2, 2, 8, 2, 2, 8, 3, 6, 8, 3, 12, 16, 4, 8, 0,
];

// Puts another set each time.
#[inline(never)]
pub fn put(net: &mut Net, i: u32) -> u64 {
    let done = net::put(*net, Side::Output, 1, i % 1000000 + 1);
    *net = done.net;
    done.answer.map_or(REFUSED, u64::from)
}

#[inline(never)]
pub fn learn(net: &mut Net, _i: u32) -> u64 {
    let done = sequences::learn(*net, &SEQUENCE);
    *net = done.net;
    done.answer.map_or(REFUSED, u64::from)
}

#[inline(never)]
pub fn check(net: &mut Net, _i: u32) -> u64 {
    walks::check(*net).map_or(REFUSED, u64::from)
}

#[inline(never)]
pub fn judge(net: &mut Net, _i: u32) -> u64 {
    sequences::judge(*net, &SEQUENCE).map_or(REFUSED, u64::from)
}
