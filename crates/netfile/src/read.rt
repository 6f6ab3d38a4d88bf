// Reading a net file.

ghost use Rattle.std.specs.Prelude.{◌≡◌, true, Ok, ◌≤◌, ◌<◌, length, MatchResult};
ghost use Rattle.obligations.specs.Limits.{activities};
ghost use Rattle.text.specs.Lines.{lines};
ghost use Rattle.net.specs.Sides.{uncounted};
ghost use Rattle.net.specs.Orderly.{ends_ok, orderly};
ghost use Rattle.net.specs.Fresh.{fresh_net};
ghost use Rattle.netfile.specs.Limits.{net_bytes};
ghost use Rattle.netfile.specs.NetFile.{Reads, refused_with, read_as, read_rows, read_set_row, from_start, read_net};
ghost use Rattle.netfile.specs.Steps.{EndsRead, on_line, PutRow};

use crate::NET_BYTES;
use crate::line::{SetRow, end_line, row_line};
use net::putting::put_side;
use net::{Net, Refusal, Refused, Returned, fresh};
use text::lines::{lines_of, split_line};

// Reads a net file. Here and in `read_from` a refusal returns at once and the net is made in what is returned. Tried: where both come
// together in one value a net more is zeroed and copied, and a small net takes nearly half as long again to read.
pub fn read_net(text: &[u8]) -> Returned<()>
    ensures { Reads (read_net text.now) result }
{
    let (start, end, rows) = match read_head(text) {
        Ok(head) => head,
        Err(refused) => return refused_reading(refused),
    };
    read_from(start, end, rows)
}

// A refused reading: the fresh net of 0 and 1.
pub fn refused_reading(refused: Refused) -> Returned<()>
    ensures { Reads (refused_with refused) result }
{
    Returned {
        answer: Err(refused),
        net: fresh(0, 1).net,
    }
}

// The start and the end, which the first three lines say, and what is behind these.
fn read_head(text: &[u8]) -> Result<(u32, u32, &[u8]), Refused>
    ensures { MatchResult result (λ e. EndsRead (read_net text.now) net_bytes e.0 e.1 e.2.now) (λ r. refused_with r ≡ read_net text.now) }
{
    if NET_BYTES < text.len() {
        return Err(Refusal::OutsideLimits.at(0));
    }
    let (header, rest) = split_line(text);
    if header != b"side,activity,members".as_slice() {
        return Err(Refusal::LineForm.at(1));
    }
    read_ends(rest)
}

// The net of a start and an end with the sets of the rows.
fn read_from(start: u32, end: u32, rows: &[u8]) -> Returned<()>
    requires ends { ends_ok start end ≡ true }
    requires short { length rows.now ≤ net_bytes }
    ensures { Reads (read_rows 4 (fresh_net start end) (lines rows.now)) result }
{
    let mut read = fresh(start, end);
    if let Err(refused) = put_rows(&mut read.net, rows) {
        return refused_reading(refused);
    }
    read
}

// The start and the end, which lines 2 and 3 say, and what is behind them. A line that is missing reads as an empty one: 13.
fn read_ends(text: &[u8]) -> Result<(u32, u32, &[u8]), Refused>
    ensures { MatchResult result (λ e. EndsRead (from_start (lines text.now)) (length text.now) e.0 e.1 e.2.now) (λ r. refused_with r ≡ from_start (lines text.now)) }
{
    let (line, rest) = split_line(text);
    let start = on_line(2, end_line(line, b"start"))?;
    let (line, rows) = split_line(rest);
    let end = on_line(3, end_line(line, b"end"))?;
    if start == end {
        return Err(Refusal::BadEnds.at(3));
    }
    Ok((start, end, rows))
}

// What a line answers; a refusal gets the line's number. Not `map_err`: of what its closure gives a proof learns nothing at a `?`.
fn on_line<T>(number: u32, answer: Result<T, Refusal>) -> Result<T, Refused>
    ensures { result ≡ on_line number answer }
{
    match answer {
        Ok(value) => Ok(value),
        Err(refusal) => Err(refusal.at(number)),
    }
}

// Puts the rows, which start at line 4, into an orderly net with counts 0. The net is changed in place, but for its counts.
// Not inlined, tried: with the loop beside it the compiler zeroes the net of `read_from` once more before it is made.
// Orderly and uncounted are clauses here and below, and no type: a net's words may be any, `fresh` made this one so in
// `read_from`, and the type would serve these three functions alone.
#[inline(never)]
fn put_rows(net: &mut Net, rows: &[u8]) -> Result<(), Refused>
    requires orderly { orderly net.old ≡ true }
    requires uncounted { uncounted net.old ≡ net.old }
    requires short { length rows.now ≤ net_bytes }
    ensures { MatchResult result (λ _. read_as net.new ≡ read_rows 4 net.old (lines rows.now)) (λ r. refused_with r ≡ read_rows 4 net.old (lines rows.now)) }
{
    for (number, line) in (4u32..).zip(lines_of(rows)) {
        on_line(number, put_line(net, line))?;
    }
    Ok(())
}

// Puts the set of a row's line.
fn put_line(net: &mut Net, line: &[u8]) -> Result<(), Refusal>
    requires orderly { orderly net.old ≡ true }
    requires uncounted { uncounted net.old ≡ net.old }
    ensures { PutRow net.old (read_set_row line.now) result net.new }
{
    put_row(net, row_line(line)?)
}

// Puts a row's set.
fn put_row(net: &mut Net, row: SetRow) -> Result<(), Refusal>
    requires orderly { orderly net.old ≡ true }
    requires uncounted { uncounted net.old ≡ net.old }
    requires activity { row.activity < activities }
    ensures { PutRow net.old (Ok row) result net.new }
{
    let empty = net.empty_at(row.side);
    put_side(net.sides_mut(row.side), empty, row.activity, row.set)?;
    Ok(())
}
