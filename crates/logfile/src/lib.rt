// Log files: `sessions,trace`, then rows. A row is read by its number, or row after row with a cursor, in time that is
// proportional to the bytes passed. Nothing is written before a row has been read in full.

#![tactic(auto)]

mod line;

ghost use Rattle.std.specs.Prelude.{◌≡◌, ◌≤◌, length, MatchResult};
ghost use Rattle.net.specs.Refusals.{with_place};
ghost use Rattle.net.specs.declared.refusal.Refusal.TheVariants.{LineForm};
ghost use Rattle.logfile.specs.LogFile.{RowRead, read_row, sizes_ok};
ghost use Rattle.logfile.specs.Cursor.{start, standing, NextRead};
ghost use Rattle.logfile.specs.Row.{begun};

use line::{fill_trace, row_line};
use net::{Refusal, Refused};
use obligations::POSITIONS;
use text::lines::{lines_of, split_line};

// A log file has at most this many bytes.
pub const LOG_BYTES: usize = 524288;

// A log file has at most this many rows.
pub const LOG_ROWS: u32 = 1000;

// A row is of at most this many sessions.
pub const MOST_SESSIONS: u32 = 1000000;

// A row that was read: its sessions and its trace's length; the trace is at the buffer's front.
#[derive(Clone, Copy)]
pub struct Row {
    pub sessions: u32,
    pub length: u32,
}

// Where a line starts, and its number. Line 1 is the header.
#[derive(Clone, Copy)]
pub struct Cursor {
    pub at: usize,
    pub line: u32,
}

// What is read at a cursor, and the cursor after it: on the next line if a row was given, else where it was.
#[derive(Clone, Copy)]
pub struct NextRow {
    pub answer: Result<Option<Row>, Refused>,
    pub cursor: Cursor,
}

// Reads row `row` of a log, counted from 1, if there is such a row.
pub fn read_row(text: &[u8], row: u64, out: &mut [u32]) -> Result<Option<Row>, Refused>
    ensures { RowRead (read_row text.now row (length out.old)) out.old result out.new }
{
    if row == 0 || !sizes_ok(text, out.len()) {
        return Err(Refusal::OutsideLimits.at(0));
    }
    // By `match`, here and in `read_at`. Tried: by `?` a row of few entries takes two to three times as long there, and the first row half
    // as long again here.
    let first = match begin(text, start()) {
        Ok(first) => first,
        Err(refused) => return Err(refused),
    };
    for (number, line) in (first.line..).zip(lines_of(&text[first.at..])) {
        let (read, trace) = row_line(number, line)?;
        // Row r is on line r + 1.
        if u64::from(number - 1) == row {
            fill_trace(trace, out);
            return Ok(Some(read));
        }
    }
    Ok(None)
}

// Reads the row at a cursor. From `start` on, and each time with the cursor that was returned, it gives row 1, row 2 and
// so on. The cursor is passed and returned by value, as a net is: a caller may keep one and go on from it again.
pub fn next_row(text: &[u8], mut cursor: Cursor, out: &mut [u32]) -> NextRow
    ensures { NextRead text.now cursor out.old result out.new }
{
    let answer = read_at(text, &mut cursor, out);
    NextRow { answer, cursor }
}

// Reads the row at a cursor, which goes on past it.
fn read_at(text: &[u8], cursor: &mut Cursor, out: &mut [u32]) -> Result<Option<Row>, Refused>
    ensures { NextRead text.now cursor.old out.old (record { answer = result; cursor = cursor.new }) out.new }
{
    if !sizes_ok(text, out.len()) {
        return Err(Refusal::OutsideLimits.at(0));
    }
    let here = match begin(text, *cursor) {
        Ok(here) => here,
        Err(refused) => return Err(refused),
    };
    if here.at == text.len() {
        return Ok(None);
    }
    let (line, rest) = split_line(&text[here.at..]);
    let (row, trace) = row_line(here.line, line)?;
    fill_trace(trace, out);
    *cursor = Cursor {
        at: text.len() - rest.len(),
        line: here.line + 1,
    };
    Ok(Some(row))
}

// The cursor at a log's start.
pub fn start() -> Cursor
    ensures { result ≡ start }
{
    Cursor { at: 0, line: 1 }
}

// Where a reader at a cursor starts: past the header, if that is the cursor's line. A cursor past the text's end stands at its end.
fn begin(text: &[u8], cursor: Cursor) -> Result<Cursor, Refused>
    ensures { MatchResult result (λ c. (begun text.now (standing text.now cursor) cursor.line ≡ Some c) × (c.at ≤ length text.now)) (λ r. (r ≡ with_place LineForm 1) × (begun text.now (standing text.now cursor) cursor.line ≡ None)) }
{
    let at = cursor.at.min(text.len());
    if 1 < cursor.line {
        return Ok(Cursor {
            at,
            line: cursor.line,
        });
    }
    let (header, rest) = split_line(&text[at..]);
    if header != b"sessions,trace".as_slice() {
        return Err(Refusal::LineForm.at(1));
    }
    Ok(Cursor {
        at: text.len() - rest.len(),
        line: 2,
    })
}

// Whether the text is within the limit and the buffer long enough.
fn sizes_ok(text: &[u8], room: usize) -> bool
    ensures { result ≡ sizes_ok text.now room }
{
    text.len() <= LOG_BYTES && POSITIONS <= room
}
