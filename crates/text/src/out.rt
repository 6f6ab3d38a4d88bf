// A buffer that is written from its front on.

ghost use Rattle.std.specs.Prelude.{◌≡◌, ◌≤◌, length};
ghost use Rattle.text.specs.Decimal.{last_digits, print_number};

use super::decimal::number_width;

// `len` bytes of the buffer are written. Where a whole text is written, an `Out` is made, written and asked for its length: a
// function for the three would take a closure, of which each caller would have to say what it writes.
#[derive(Drop)]
pub struct Out<'a> {
    buf: &'a mut [u8],
    len: usize,
    ghost in_buffer: { len ≤ length buf.now },
}

impl<'a> Out<'a> {
    ghost use Rattle.text.specs.Writing.{Room, Appends};

    // Nothing is written yet.
    pub fn new(buf: &'a mut [u8]) -> Out<'a>
        ensures same_buffer { result.buf.ghost_name ≡ buf.entry.ghost_name }
        ensures bytes { result.buf.now ≡ buf.old }
        ensures empty { result.len ≡ 0 }
    {
        Out { buf, len: 0 }
    }

    // How many bytes are written.
    pub fn len(&self) -> usize
        ensures { result ≡ self.now.len }
    {
        self.len
    }

    // Writes t.
    pub fn bytes(&mut self, t: &[u8])
        requires { Room self.old t.now }
        ensures { Appends self.old t.now self.new }
    {
        let end = self.len + t.len();
        self.buf[self.len..end].copy_from_slice(t);
        self.len = end;
    }

    // Writes n in decimal.
    pub fn number(&mut self, n: u64)
        requires { Room self.old (print_number n) }
        ensures { Appends self.old (print_number n) self.new }
    {
        // One digit at once. Tried: by the loop over digits alone a net file takes a fifth more instructions to write.
        if n < 10 {
            return self.bytes(&[b'0' + n as u8]);
        }
        let end = self.len + number_width(n);
        fill_digits(&mut self.buf[self.len..end], n);
        self.len = end;
    }
}

// Fills a buffer with the last digits of n. By index: of what is written through `iter_mut().rev()` a proof learns nothing.
fn fill_digits(digits: &mut [u8], n: u64)
    ensures { digits.new ≡ last_digits (length digits.old) n }
{
    let mut rest = n;
    for i in (0..digits.len()).rev() {
        digits[i] = b'0' + (rest % 10) as u8;
        rest /= 10;
    }
}
