// Writing a net file. Each writer below takes a sink, which is a buffer or a count: one first, to find the text's length, and
// then the other.

ghost use Rattle.std.specs.Prelude.{◌≡◌, true, ◌≤◌, length};
ghost use Rattle.text.specs.Inner.{Wrote};
ghost use Rattle.obligations.specs.Limits.{activities};
ghost use Rattle.text.specs.Lines.{unlines};
ghost use Rattle.net.specs.Orderly.{orderly};
ghost use Rattle.netfile.specs.NetFile.{head_lines, side_word, set_lines, sets_lines, activity_lines, net_text, NetWritten};

use net::{Net, Refusal, Refused, Side, is_orderly};
use obligations::ACTIVITIES;
use text::members::write_members;
use text::out::Out;
use text::sink::{Sink, Width};

// Writes an orderly net to the front of the buffer, and returns the text's length, which has 32 bits: no net's text is longer.
// A cast, as the check proves that nothing is lost.
pub fn write_net(net: Net, out: &mut [u8]) -> Result<u32, Refused>
    ensures { NetWritten net out.old result out.new }
{
    if !is_orderly(&net) {
        return Err(Refusal::Disorderly.at(0));
    }
    let mut width = Width(0);
    write_text(&mut width, &net);
    if out.len() < width.0 {
        return Err(Refusal::TextTooLong.at(0));
    }
    Ok(fill(out, &net) as u32)
}

// Writes the text of an orderly net to the front of a buffer that has room for it, and returns its length.
fn fill(out: &mut [u8], net: &Net) -> usize
    requires orderly { orderly net.now ≡ true }
    requires room { length (net_text net.now) ≤ length out.old }
    ensures { Wrote out.old 0 (net_text net.now) out.new result }
{
    let mut text = Out::new(out);
    write_text(&mut text, net);
    text.len()
}

// The text of an orderly net.
fn write_text<S: Sink>(out: &mut S, net: &Net)
    requires orderly { orderly net.now ≡ true }
    requires room { S.room out.old (net_text net.now) }
    ensures { S.takes out.old (net_text net.now) out.new }
{
    write_head(out, net.start, net.end);
    write_rows(out, net);
}

// The header, the start row and the end row.
fn write_head<S: Sink>(out: &mut S, start: u32, end: u32)
    requires { S.room out.old (unlines (head_lines start end)) }
    ensures { S.takes out.old (unlines (head_lines start end)) out.new }
{
    out.bytes(b"side,activity,members\r\nstart,");
    out.number(u64::from(start));
    out.bytes(b",\r\nend,");
    out.number(u64::from(end));
    out.bytes(b",\r\n");
}

// The rows of an orderly net's sets, by activity.
fn write_rows<S: Sink>(out: &mut S, net: &Net)
    requires orderly { orderly net.now ≡ true }
    requires room { S.room out.old (unlines (activity_lines net.now activities 0)) }
    ensures { S.takes out.old (unlines (activity_lines net.now activities 0)) out.new }
{
    for a in 0..ACTIVITIES {
        write_sets(out, Side::Input, a, net.inputs.sets(a));
        write_sets(out, Side::Output, a, net.outputs.sets(a));
    }
}

// The rows of some sets on a side of activity a.
fn write_sets<S: Sink>(out: &mut S, side: Side, a: u32, sets: &[u32])
    requires { S.room out.old (unlines (sets_lines side a sets.now)) }
    ensures { S.takes out.old (unlines (sets_lines side a sets.now)) out.new }
{
    for m in sets {
        write_set(out, side, a, *m);
    }
}

// A set's row; the empty set has none.
fn write_set<S: Sink>(out: &mut S, side: Side, a: u32, m: u32)
    requires { S.room out.old (unlines (set_lines side a m)) }
    ensures { S.takes out.old (unlines (set_lines side a m)) out.new }
{
    if m == 0 {
        return;
    }
    out.bytes(word(side));
    out.bytes(b",");
    out.number(u64::from(a));
    out.bytes(b",");
    write_members(out, m);
    out.bytes(b"\r\n");
}

// A side's word. It is the file's rule, and no conversion of `Side`.
fn word(side: Side) -> &'static [u8]
    ensures { result.now ≡ side_word side }
{
    match side {
        Side::Input => b"in",
        Side::Output => b"out",
    }
}
