// Lists of masks and of counts, lent as slices.

ghost use Rattle.std.specs.Prelude.{◌≡◌};
ghost use Rattle.net.specs.Lists.{all_listed, ascends_above, zeros, place_in};

// Whether each element of the list is one of the other's.
pub fn all_listed(list: &[u32], other: &[u32]) -> bool
    ensures { result ≡ all_listed list.now other.now }
{
    list.iter().all(|m| other.contains(m))
}

// Whether the list strictly ascends, its first element above 0, which is the empty set. By `is_sorted_by`, since `is_sorted` lets equals
// pass.
pub fn ascends(list: &[u32]) -> bool
    ensures { result ≡ ascends_above 0 list.now }
{
    list.is_sorted_by(|a, b| a < b) && list.first() != Some(&0)
}

// Whether each element is zero. Nearly every list is, so the loop doesn't stop at one that isn't: the compiler then takes several at
// a time. A loop and no `fold`, tried: with it the test of a record, which each call makes, takes a sixth more instructions.
pub fn all_zero(list: &[u32]) -> bool
    ensures { result ≡ zeros list.now }
{
    let mut bits: u32 = 0;
    for m in list {
        bits |= *m;
    }
    bits == 0
}

// The place of m in an ascending list: behind the elements below it. By `position` and not by halves (`binary_search`): learn and
// follow may not divide, and a side has 16 sets at most.
pub fn place_in(list: &[u32], m: u32) -> usize
    ensures { result ≡ place_in m list.now }
{
    list.iter().position(|x| *x >= m).unwrap_or(list.len())
}
