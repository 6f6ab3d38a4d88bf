// What a command answers, and how that is written.

ghost use Rattle.std.specs.Prelude.{◌≡◌, MatchResult};

use net::Refused;
use std::fmt;

// An answer, with the words or the bytes that it gives.
#[derive(Clone, Copy)]
pub enum Answer<'a> {
    // The command was done and gives no number.
    Done,
    Value(u64),
    Words(&'a [u32]),
    // The text register. Its bytes may be no text, so they are written behind this line.
    Shown(&'a [u8]),
    // A replay's outcomes, the first with its sequence. Those of `search` have none, and this crate doesn't build on it.
    Found { trials: u64, sequence: &'a [u32] },
    Failed { trials: u64 },
    Spent { trials: u64 },
    Row { sessions: u32, trace: &'a [u32] },
    End,
    // Of a share how many sessions in a thousand, the remainder, and the sessions that are spent.
    Share(u64, u64, u64),
    Refused(Refused),
}

// The answer of a call: what `value` makes of what it gave, or its refusal. Not `map_or_else`, tried: Rattle doesn't take a function
// there whose result has a lifetime of its own.
pub fn answered<'a, T, F>(called: Result<T, Refused>, value: F) -> Answer<'a>
where
    F: FnOnce(T) -> Answer<'a>,
    requires { (v : _) → F.pre value v }
    ensures { MatchResult called (λ v. F.post value v result) (λ r. result ≡ Answer.Refused r) }
{
    match called {
        Ok(v) => value(v),
        Err(refused) => Answer::Refused(refused),
    }
}

// An answer, and whether a word or byte of a lent buffer that the call must leave as it was has changed. Both are known of every
// command, so this is no `Option` or `Result`.
#[derive(Clone, Copy)]
pub struct Reply<'a> {
    pub answer: Answer<'a>,
    pub changed: bool,
}

// The reply of a command that lends no buffer.
impl<'a> From<Answer<'a>> for Reply<'a> {
    ghost use Rattle.std.specs.Prelude.{◌≡◌, false};

    ghost from_gives = { λ answer reply. reply ≡ record { answer = answer; changed = false } };

    fn from(answer: Answer<'a>) -> Reply<'a> {
        Reply {
            answer,
            changed: false,
        }
    }
}

impl fmt::Display for Answer<'_> {
    fn fmt<W: fmt::Write>(&self, f: &mut fmt::Formatter<W>) -> fmt::Result {
        match *self {
            Answer::Done => write!(f, "ok"),
            Answer::Value(value) => write_numbers(f, "ok", &[value]),
            Answer::Words(words) => {
                write!(f, "words")?;
                write_words(f, words)
            }
            Answer::Shown(text) => write_numbers(f, "text", &[text.len() as u64]),
            Answer::Found { trials, sequence } => {
                write_numbers(f, "found", &[trials])?;
                write_words(f, sequence)
            }
            Answer::Failed { trials } => write_numbers(f, "none", &[trials]),
            Answer::Spent { trials } => write_numbers(f, "spent", &[trials]),
            Answer::Row { sessions, trace } => {
                write_numbers(f, "row", &[u64::from(sessions), trace.len() as u64])?;
                write_words(f, trace)
            }
            Answer::End => write!(f, "end"),
            Answer::Share(q, r, spent) => write_numbers(f, "ok", &[q, r, spent]),
            Answer::Refused(Refused { refusal, place }) => {
                write_numbers(
                    f,
                    "refused",
                    &[u64::from(refusal.number()), u64::from(place)],
                )
            }
        }
    }
}

// A reply's line, with its end. Word, space, number and end are a piece each, but for the line of a command that is done: the output's
// buffer is written when a piece no longer fits, so where the pieces part is seen where an output fails.
impl fmt::Display for Reply<'_> {
    fn fmt<W: fmt::Write>(&self, f: &mut fmt::Formatter<W>) -> fmt::Result {
        if let (Answer::Done, false) = (self.answer, self.changed) {
            return f.write_str("ok\n");
        }
        write!(f, "{}", self.answer)?;
        f.write_str(if self.changed { " changed\n" } else { "\n" })
    }
}

// A word and numbers, each with a space before it.
fn write_numbers<W: fmt::Write>(
    f: &mut fmt::Formatter<W>,
    word: &str,
    numbers: &[u64],
) -> fmt::Result {
    f.write_str(word)?;
    for number in numbers {
        write_number(f, *number)?;
    }
    Ok(())
}

// Words, each with a space before it.
fn write_words<W: fmt::Write>(f: &mut fmt::Formatter<W>, words: &[u32]) -> fmt::Result {
    for word in words {
        write_number(f, u64::from(*word))?;
    }
    Ok(())
}

// A number with a space before it.
fn write_number<W: fmt::Write>(f: &mut fmt::Formatter<W>, number: u64) -> fmt::Result {
    f.write_str(" ")?;
    write!(f, "{number}")
}
