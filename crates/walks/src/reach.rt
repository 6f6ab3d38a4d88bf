// Reach along rows of sets, where row a is the set of the activities one step on from a.

ghost use Rattle.std.specs.Prelude.{◌<◌, ◌≡◌};
ghost use Rattle.obligations.specs.Limits.{activities};
ghost use Rattle.walks.specs.Rows.{reach};

use crate::arcs::Rows;
use obligations::sets;

// All activities that steps lead to from one, itself among them. Each is looked at once: what is seen and not yet done is
// taken lowest first, and those one step on from it are seen. A `for` would be no plainer, since the set that is walked grows on the way.
pub fn reach(next: &Rows, from: u32) -> u32
    requires is_activity { from < activities }
    ensures { result ≡ reach next.now from }
{
    let mut seen = sets::single(from);
    let mut done = 0;
    while done != seen {
        let a = sets::minus(seen, done).trailing_zeros();
        seen = sets::union(seen, next[a as usize]);
        done = sets::with(done, a);
    }
    seen
}
