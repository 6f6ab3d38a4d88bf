// Buffers. Those that are lent to a call have a known value in each word or byte before it, so that it can be seen whether
// one that the call must leave as it was has changed. The value goes by the place: a call that wrote one and the same
// value everywhere, or moved words along, is seen too.

ghost use Rattle.std.specs.Prelude.{ℕ, ◌≡◌, ◌↔◌, IsTrue, length};
ghost use Rattle.machine.specs.Buffers.{untouched_word, untouched_byte, Filled, AllFrom};

// A buffer. Its contract gives only a length, which is what lending it takes: a proof that looked into four million bytes would not
// end.
pub fn room<T: Copy + Default, const N: usize>() -> [T; N]
    ensures { length result ≡ N }
{
    [T::default(); N]
}

// What is lent to a call, a word or a byte.
pub trait Pattern: Copy + Ord {
    ghost untouched: { ℕ → Self };

    // What the element at place k is before a call.
    fn untouched(k: usize) -> Self
        ensures { result ≡ untouched k };
}

impl Pattern for u32 {
    ghost untouched = { untouched_word };

    fn untouched(k: usize) -> u32 {
        u32::MAX - (k % 65536) as u32
    }
}

impl Pattern for u8 {
    ghost untouched = { untouched_byte };

    fn untouched(k: usize) -> u8 {
        u8::MAX - (k % 251) as u8
    }
}

// Gives every element the value that is known for its place. By index here and below, tried: by `enumerate` nothing bounds a place for the
// compiler, and the remainder is taken in 64 bits, which takes twice the instructions.
pub fn fill<T: Pattern>(lent: &mut [T])
    ensures { Filled T.untouched lent.old lent.new }
{
    for k in 0..lent.len() {
        lent[k] = T::untouched(k);
    }
}

// Whether the elements from index `from` on are what they were before the call.
pub fn is_untouched<T: Pattern>(lent: &[T], from: usize) -> bool
    ensures { IsTrue result ↔ AllFrom T.eq T.untouched from lent.now }
{
    for k in from..lent.len() {
        if lent[k] != T::untouched(k) {
            return false;
        }
    }
    true
}
