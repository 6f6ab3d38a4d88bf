// Calls that read a text.

use crate::REFUSED;
use obligations::POSITIONS;

// A log has no row of this number or a higher one, so that reading such a row passes over the whole log.
const NO_ROW: u64 = 1001;

// Nets are read from the same text each time; what that stores keeps the compiler from making one call of many.
#[inline(never)]
pub fn read_net(text: &mut &[u8], _i: u32) -> u64 {
    netfile::read_net(text).answer.map_or(REFUSED, |_| 1)
}

// Rows have another number each time.
#[inline(never)]
pub fn read_row(text: &mut &[u8], i: u32) -> u64 {
    let mut trace = [0u32; POSITIONS];
    match logfile::read_row(text, NO_ROW + u64::from(i), &mut trace) {
        Ok(None) => 1,
        _ => REFUSED,
    }
}
