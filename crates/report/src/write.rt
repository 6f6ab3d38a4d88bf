// The lines of reports, each put together from pieces.

ghost use Rattle.std.specs.Prelude.{◌≡◌, ◌≤◌, length};
ghost use Rattle.text.specs.Inner.{Wrote};
ghost use Rattle.text.specs.Writing.{Room, Appends};
ghost use Rattle.net.specs.Refusals.{refusal_number};
ghost use Rattle.search.specs.Replay.{outcome_means};
ghost use Rattle.report.specs.Pieces.{pieces_text};
ghost use Rattle.report.specs.RowLines.{answer_word, answer_trials, report_line};
ghost use Rattle.report.specs.ShareLines.{figures_text};
ghost use Rattle.report.specs.Report.{refusal_text};

use net::Refused;
use search::Outcome;
use text::out::Out;
use wholelog::{Figures, Replayed};

// A piece of a line: bytes as they are, or a number in decimal.
#[derive(Clone, Copy)]
enum Piece<'a> {
    Bytes(&'a [u8]),
    Number(u64),
}

// Writes pieces one after the other.
fn write_pieces(out: &mut Out, pieces: &[Piece<'_>])
    requires { Room out.old (pieces_text pieces.now) }
    ensures { Appends out.old (pieces_text pieces.now) out.new }
{
    for piece in pieces {
        match *piece {
            Piece::Bytes(t) => out.bytes(t),
            Piece::Number(n) => out.number(n),
        }
    }
}

// Writes pieces at the buffer's front, and returns their length.
fn write_front(out: &mut [u8], pieces: &[Piece<'_>]) -> usize
    requires { length (pieces_text pieces.now) ≤ length out.old }
    ensures { Wrote out.old 0 (pieces_text pieces.now) out.new result }
{
    let mut text = Out::new(out);
    write_pieces(&mut text, pieces);
    text.len()
}

// Writes the line of a refusal at the buffer's front, for a file's word, and returns its length.
pub fn write_refusal(out: &mut [u8], file: &[u8], refused: Refused) -> usize
    requires { length (refusal_text file.now (refusal_number refused.refusal) refused.place) ≤ length out.old }
    ensures { Wrote out.old 0 (refusal_text file.now (refusal_number refused.refusal) refused.place) out.new result }
{
    write_front(
        out,
        &[
            Piece::Bytes(b"refused,"),
            Piece::Bytes(file),
            Piece::Bytes(b","),
            Piece::Number(u64::from(refused.refusal.number())),
            Piece::Bytes(b","),
            Piece::Number(u64::from(refused.place)),
            Piece::Bytes(b"\r\n"),
        ],
    )
}

// Writes the line of a row that was replayed.
pub fn write_row(out: &mut Out, row: Replayed)
    requires { Room out.old (report_line row.row row.sessions (outcome_means row.outcome)) }
    ensures { Appends out.old (report_line row.row row.sessions (outcome_means row.outcome)) out.new }
{
    let (word, trials) = told(row.outcome);
    write_pieces(
        out,
        &[
            Piece::Number(u64::from(row.row)),
            Piece::Bytes(b","),
            Piece::Number(u64::from(row.sessions)),
            Piece::Bytes(b","),
            Piece::Bytes(word),
            Piece::Bytes(b","),
            Piece::Number(trials),
            Piece::Bytes(b"\r\n"),
        ],
    );
}

// The word for an outcome, and its trials.
fn told(outcome: Outcome) -> (&'static [u8], u64)
    ensures word { result.0.now ≡ answer_word (outcome_means outcome) }
    ensures trials { result.1 ≡ answer_trials (outcome_means outcome) }
{
    match outcome {
        Outcome::Found { trials } => (b"found", trials),
        Outcome::Failed { trials } => (b"none", trials),
        Outcome::Spent { trials } => (b"spent", trials),
    }
}

// Writes the two lines of a share at the buffer's front: in words, and as fields. Returns their length.
pub fn write_figures(out: &mut [u8], figures: Figures) -> usize
    requires { length (figures_text figures) ≤ length out.old }
    ensures { Wrote out.old 0 (figures_text figures) out.new result }
{
    let Figures {
        per_thousand,
        remainder,
        fitting,
        spent,
        all,
    } = figures;
    write_front(
        out,
        &[
            Piece::Number(fitting),
            Piece::Bytes(b" of "),
            Piece::Number(all),
            Piece::Bytes(b" sessions fit: "),
            Piece::Number(per_thousand),
            Piece::Bytes(b" in a thousand, remainder "),
            Piece::Number(remainder),
            Piece::Bytes(b"; "),
            Piece::Number(spent),
            Piece::Bytes(b" spent\r\nshare,"),
            Piece::Number(per_thousand),
            Piece::Bytes(b","),
            Piece::Number(remainder),
            Piece::Bytes(b","),
            Piece::Number(fitting),
            Piece::Bytes(b","),
            Piece::Number(spent),
            Piece::Bytes(b","),
            Piece::Number(all),
            Piece::Bytes(b"\r\n"),
        ],
    )
}
