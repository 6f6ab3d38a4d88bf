// Member lists: a set's activities in ascending order, separated by one space.

ghost use Rattle.std.specs.Prelude.{◌≡◌, length};
ghost use Rattle.text.specs.Members.{parse_members, print_members};

use super::decimal::read_number;
use super::fields::split;
use super::sink::{Sink, Width};
use obligations::ACTIVITIES;
use obligations::sets::{members, with};

// The set whose member list is `list`, unless a member is not an activity written as a number, or is not above the one before
// it.
pub fn read_members(list: &[u8]) -> Option<u32>
    ensures { result ≡ parse_members list.now }
{
    let mut low: u32 = 0;
    let mut set: u32 = 0;
    for field in split(list, b' ') {
        let k = read_number(field, ACTIVITIES - 1)?;
        if k < low {
            return None;
        }
        set = with(set, k);
        low = k + 1;
    }
    Some(set)
}

// Writes the member list of a set.
pub fn write_members<S: Sink>(out: &mut S, set: u32)
    requires { S.room out.old (print_members set) }
    ensures { S.takes out.old (print_members set) out.new }
{
    let mut others = members(set);
    let Some(first) = others.next() else {
        return;
    };
    out.number(u64::from(first));
    for k in others {
        out.bytes(b" ");
        out.number(u64::from(k));
    }
}

// How many bytes the member list of a set takes. Beside `write_members` into a `Width`, since it asks nothing of its caller, and may not
// come to: it was public before there was a `Width`.
pub fn members_width(set: u32) -> usize
    ensures { result ≡ length (print_members set) }
{
    let mut width = Width(0);
    write_members(&mut width, set);
    width.0
}
