// One row's line: what it says, and its trace written to a buffer.

ghost use Rattle.std.specs.Prelude.{◌≡◌, ◌∷◌, [], length, MatchOption, MatchResult};
ghost use Rattle.text.specs.Fields.{comma, split};
ghost use Rattle.logfile.specs.LogFile.{read_line};
ghost use Rattle.logfile.specs.Row.{fault_of, count_entries, parse_sessions, IsTrace, TraceFilled, RowOnLine};

use super::{LOG_ROWS, MOST_SESSIONS, Row};
use net::{Refusal, Refused};
use obligations::{ACTIVITIES, POSITIONS};
use text::decimal::read_number;
use text::fields::split;

// What a line says as a row, with its trace's field.
pub fn row_line(number: u32, line: &[u8]) -> Result<(Row, &[u8]), Refused>
    ensures { MatchResult result (λ p. RowOnLine number line.now p.0 p.1.now) (λ r. read_line number line.now ≡ fault_of r) }
{
    // The fields and the length by `let .. else`. Tried: by `ok_or` and `?`, where what holds a slice or a `usize` is put together on the
    // stack, a row of few entries takes two to three times as long.
    let Some((first, trace)) = two_fields(line) else {
        return Err(Refusal::LineForm.at(number));
    };
    let sessions = read_sessions(first).ok_or(Refusal::NumberForm.at(number))?;
    let Some(length) = count_entries(trace) else {
        return Err(Refusal::NumberForm.at(number));
    };
    // Row r is on line r + 1.
    if POSITIONS < length || LOG_ROWS + 1 < number {
        return Err(Refusal::OutsideLimits.at(number));
    }
    let row = Row {
        sessions,
        // At most 96. A cast, as the check proves that nothing is lost.
        length: length as u32,
    };
    Ok((row, trace))
}

// The fields of a line that has two. Not one function with `three_fields` of `netfile`: for any number of fields it would fill an array
// in a loop, and be no plainer.
fn two_fields(line: &[u8]) -> Option<(&[u8], &[u8])>
    ensures { MatchOption result (length (split comma line.now) ≡ 2 → ⊥) (λ f. split comma line.now ≡ f.0.now ∷ f.1.now ∷ []) }
{
    let mut fields = split(line, b',');
    match (fields.next(), fields.next(), fields.next()) {
        (Some(sessions), Some(trace), None) => Some((sessions, trace)),
        _ => None,
    }
}

// The sessions that a field says.
fn read_sessions(field: &[u8]) -> Option<u32>
    ensures { result ≡ parse_sessions field.now }
{
    read_number(field, MOST_SESSIONS).filter(|sessions| *sessions != 0)
}

// How many entries a trace has, if all are activities. Those past the last that a trace may have are read too, since a wrong one
// among them is refused by 14, which comes before 3.
fn count_entries(trace: &[u8]) -> Option<usize>
    ensures { result ≡ count_entries trace.now }
{
    if trace.is_empty() {
        return Some(0);
    }
    split(trace, b' ').try_fold(0, |n, entry| {
        read_number(entry, ACTIVITIES - 1)?;
        Some(n + 1)
    })
}

// Writes the entries of a trace, which were found to be activities, to the buffer's front. By index, tried: of what is written through
// `iter_mut()` zipped with the fields a proof learns nothing.
pub fn fill_trace(trace: &[u8], out: &mut [u32])
    requires { IsTrace trace.now (length out.old) }
    ensures { TraceFilled trace.now out.old out.new }
{
    if trace.is_empty() {
        return;
    }
    for (k, entry) in split(trace, b' ').enumerate() {
        out[k] = read_number(entry, ACTIVITIES - 1).unwrap();
    }
}
