// The numbers of a script's line, and numbers as words.

ghost use Rattle.std.specs.Prelude.{◌≡◌, ◌≤◌, IfSome, length};

use text::decimal::read_wide;
use text::fields::Fields;

// A line has at most this many numbers.
pub const NUMBERS: usize = 1024;

// Reads the numbers that fields say into the buffer's front: none, if one of them says no number or there are more than the buffer
// holds. They are counted, since what is returned is as long as they are many.
pub fn read_numbers<'n>(fields: Fields, buf: &'n mut [u64]) -> Option<&'n [u64]>
    ensures { IfSome result (λ numbers. length numbers.now ≤ length buf.old) }
{
    let mut n = 0;
    for field in fields {
        *buf.get_mut(n)? = read_wide(field, u64::MAX)?;
        n += 1;
    }
    buf.get(..n)
}

// Copies numbers, as words, to the buffer's front: none, if one of them is no word or there are more than the buffer holds.
pub fn words_from<'w>(numbers: &[u64], buf: &'w mut [u32]) -> Option<&'w [u32]>
    ensures { IfSome result (λ words. length words.now ≡ length numbers.now) }
{
    let words = buf.get_mut(..numbers.len())?;
    for (word, number) in words.iter_mut().zip(numbers) {
        *word = u32::try_from(*number).ok()?;
    }
    Some(words)
}
