// A script, of which what is left is run. That it only shrinks is a clause of each function that passes over a part: it compares
// before and after, which no type can.

ghost use Rattle.std.specs.Prelude.{◌≡◌, ◌≤◌, ◌<◌, MatchOption, length};

use text::bytes::split_once;

#[derive(Drop)]
pub struct Script<'s> {
    rest: &'s [u8],
}

impl<'s> Script<'s> {
    pub fn new(bytes: &'s [u8]) -> Script<'s> {
        Script { rest: bytes }
    }

    // The next line, if an LF ends it: it is passed, with the LF.
    pub fn next_line(&mut self) -> Option<&'s [u8]>
        ensures { MatchOption result (self.new.rest.now ≡ self.old.rest.now) (λ _. length self.new.rest.now < length self.old.rest.now) }
    {
        let (line, rest) = split_once(self.rest, b'\n')?;
        self.rest = rest;
        Some(line)
    }

    // The next n bytes, if an LF follows them. The n bytes are passed in any case, and the LF where there is one; where there are
    // fewer, all that are left are passed.
    pub fn next_text(&mut self, n: usize) -> Option<&'s [u8]>
        ensures { length self.new.rest.now ≤ length self.old.rest.now }
    {
        let Some((text, rest)) = self.rest.split_at_checked(n) else {
            self.rest = &[];
            return None;
        };
        self.rest = rest;
        self.rest = rest.strip_prefix(b"\n")?;
        Some(text)
    }

    pub fn is_at_end(&self) -> bool {
        self.rest.is_empty()
    }

    pub fn is_at_comment(&self) -> bool {
        self.rest.starts_with(b"#")
    }
}
