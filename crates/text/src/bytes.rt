// Byte strings: counting, finding and cutting at a byte. Two are compared by `==`.

ghost use Rattle.std.specs.Prelude.{◌≡◌, ◌==◌, MatchOption, length, position};
ghost use Rattle.text.specs.Bytes.{bytes_before, occurrences};
ghost use Rattle.text.specs.Inner.{CutAt};

// How often c stands in s. A sum, since that is compiled to vector operations.
pub fn count_byte(s: &[u8], c: u8) -> usize
    ensures { result ≡ occurrences c s.now }
{
    s.iter().map(|b| usize::from(*b == c)).sum()
}

// Where the first c stands in s.
pub fn find_byte(s: &[u8], c: u8) -> Option<usize>
    ensures { result ≡ position (λ b. b == c) s.now }
{
    s.iter().position(|b| *b == c)
}

// The parts of s before and behind the first c.
pub fn split_once(s: &[u8], c: u8) -> Option<(&[u8], &[u8])>
    ensures { MatchOption result (bytes_before c s.now ≡ length s.now) (λ p. CutAt c s.now p.0.now p.1.now) }
{
    let i = find_byte(s, c)?;
    Some((&s[..i], &s[i + 1..]))
}
