// Lines of a text: each is ended by CR LF or by the text's end.

ghost use Rattle.std.specs.Prelude.{◌≡◌, ◌+◌, length, take, drop};
ghost use Rattle.std.specs.Iterator.{YieldsFirstRef, item_count};
ghost use Rattle.text.specs.Inner.{line_length};
ghost use Rattle.text.specs.Lines.{lines};
ghost use Rattle.text.specs.Reading.{lines_left};

// The first line of s, and what is behind its CR LF. By a loop up to the last byte but one, so that no turn tests whether a byte
// follows. Tried: by `windows(2)` and `position`, which compare both bytes at each place, a log takes a twentieth longer to read.
pub fn split_line(s: &[u8]) -> (&[u8], &[u8])
    ensures line { result.0.now ≡ take (line_length s.now) s.now }
    ensures rest { result.1.now ≡ drop (line_length s.now + 2) s.now }
{
    for i in 0..s.len().saturating_sub(1) {
        if s[i] == b'\r' && s[i + 1] == b'\n' {
            return (&s[..i], &s[i + 2..]);
        }
    }
    (s, &s[s.len()..])
}

// The lines of `rest`.
#[derive(Drop)]
pub struct Lines<'a> {
    rest: &'a [u8],
}

// The lines of a text.
pub fn lines_of(text: &[u8]) -> Lines<'_>
    ensures { lines_left result ≡ lines text.now }
{
    Lines { rest: text }
}

impl<'a> Iterator for Lines<'a> {
    type Item = &'a [u8];

    ghost next_gives = { YieldsFirstRef lines_left };

    ghost remaining = { item_count lines_left };

    fn next(&mut self) -> Option<&'a [u8]> {
        if self.rest.is_empty() {
            return None;
        }
        let (line, rest) = split_line(self.rest);
        self.rest = rest;
        Some(line)
    }
}
