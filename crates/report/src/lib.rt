// What the programs `replay` and `share` print: the bytes of a net file and of a log file are turned into the bytes of a report. The net
// is read and checked once; only then is the log looked at. It is read twice: once for a fault anywhere in it, before anything is
// written, and once row after row.

#![tactic(auto)]

mod write;

ghost use Rattle.std.specs.Prelude.{◌≡◌, true, ◌≤◌, length};
ghost use Rattle.text.specs.Inner.{Wrote};
ghost use Rattle.text.specs.Writing.{Room, Appends};
ghost use Rattle.net.specs.Orderly.{orderly};
ghost use Rattle.netfile.specs.NetFile.{Reads};
ghost use Rattle.search.specs.Replay.{checked_says};
ghost use Rattle.wholelog.specs.Computed.{rows_of};
ghost use Rattle.report.specs.RowLines.{rows_text, table_text};
ghost use Rattle.report.specs.Report.{row_budget, report_room, replays_text, share_text, checked_text, read_checked, report_text};

use net::{Net, Refusal, Returned};
use netfile::{read_net, refused_reading};
use obligations::SEQUENCE_WORDS;
use text::out::Out;
use wholelog::{Rows, check_log, share_lent};
pub use write::write_refusal;
use write::{write_figures, write_row};

// Each of the two files has at most this many bytes.
pub const FILE_BYTES: usize = 65536;

// A buffer of this many bytes has room for every report.
pub const REPORT_ROOM: usize = 32768;

// The budget of a row's replay.
pub const ROW_BUDGET: u64 = 1000000;

// What a report is of: the replay of each row, or the share of fitting sessions.
#[derive(Clone, Copy)]
pub enum ReportKind {
    Replays,
    Share,
}

// Writes the report to the front of the buffer, and returns its length.
pub fn report(kind: ReportKind, net_text: &[u8], log_text: &[u8], out: &mut [u8]) -> usize
    requires { report_room ≤ length out.old }
    ensures { Wrote out.old 0 (report_text kind net_text.now log_text.now) out.new result }
{
    let read = read_checked(net_text);
    match read.answer {
        Ok(()) => report_log(kind, read.net, log_text, out),
        Err(refused) => write_refusal(out, b"net", refused),
    }
}

// Reads a net file and checks the net. A refusal of the check has no line, so its place is 0 here.
pub fn read_checked(text: &[u8]) -> Returned<()>
    ensures { Reads (read_checked text.now) result }
{
    if FILE_BYTES < text.len() {
        return refused_reading(Refusal::OutsideLimits.at(0));
    }
    let read = read_net(text);
    if read.answer.is_err() {
        return read;
    }
    match walks::check(read.net) {
        Ok(_) => read,
        Err(refused) => refused_reading(refused.refusal.at(0)),
    }
}

// Writes the report of a log in a net that has been checked to the front of the buffer, and returns its length. The whole log is
// read before anything is written.
pub fn report_log(kind: ReportKind, net: Net, text: &[u8], out: &mut [u8]) -> usize
    requires { (orderly net ≡ true) × (report_room ≤ length out.old) }
    ensures { Wrote out.old 0 (checked_text kind net text.now) out.new result }
{
    if FILE_BYTES < text.len() {
        return write_refusal(out, b"log", Refusal::OutsideLimits.at(0));
    }
    match kind {
        ReportKind::Replays => report_replays(&net, text, out),
        ReportKind::Share => report_share(&net, text, out),
    }
}

// Writes the share of fitting sessions to the front of the buffer, and returns the length of what is written.
fn report_share(net: &Net, text: &[u8], out: &mut [u8]) -> usize
    requires { (orderly net.now ≡ true) × (report_room ≤ length out.old) }
    ensures { Wrote out.old 0 (share_text net.now text.now) out.new result }
{
    match share_lent(net, text, ROW_BUDGET) {
        Ok(figures) => write_figures(out, figures),
        Err(refused) => write_refusal(out, b"log", refused),
    }
}

// Writes the header and the rows to the front of the buffer, or the line of the log's refusal, and returns their length.
fn report_replays(net: &Net, text: &[u8], out: &mut [u8]) -> usize
    requires { (orderly net.now ≡ true) × (report_room ≤ length out.old) }
    ensures { Wrote out.old 0 (replays_text net.now text.now) out.new result }
{
    if let Err(refused) = check_log(text) {
        return write_refusal(out, b"log", refused);
    }
    write_table(net, text, out)
}

// Writes the header and the rows' lines to the front of the buffer, and returns their length.
fn write_table(net: &Net, text: &[u8], out: &mut [u8]) -> usize
    requires orderly { orderly net.now ≡ true }
    requires room { length (table_text (λ t. checked_says net.now t row_budget) (rows_of text.now)) ≤ length out.old }
    ensures { Wrote out.old 0 (table_text (λ t. checked_says net.now t row_budget) (rows_of text.now)) out.new result }
{
    let mut lines = Out::new(out);
    table_lines(&mut lines, net, text);
    lines.len()
}

// Writes the header and the rows' lines.
fn table_lines(out: &mut Out, net: &Net, text: &[u8])
    requires orderly { orderly net.now ≡ true }
    requires room { Room out.old (table_text (λ t. checked_says net.now t row_budget) (rows_of text.now)) }
    ensures { Appends out.old (table_text (λ t. checked_says net.now t row_budget) (rows_of text.now)) out.new }
{
    out.bytes(b"row,sessions,answer,trials\r\n");
    write_rows(out, net, text);
}

// Replays the rows of a log and writes their lines. The net is lent to each replay.
fn write_rows(out: &mut Out, net: &Net, text: &[u8])
    requires orderly { orderly net.now ≡ true }
    requires room { Room out.old (rows_text (λ t. checked_says net.now t row_budget) 1 (rows_of text.now)) }
    ensures { Appends out.old (rows_text (λ t. checked_says net.now t row_budget) 1 (rows_of text.now)) out.new }
{
    let mut bindings = [0u32; SEQUENCE_WORDS];
    let mut rows = Rows::new(text);
    while let Some(row) = rows.replay_next(net, ROW_BUDGET, &mut bindings) {
        write_row(out, row);
    }
}
