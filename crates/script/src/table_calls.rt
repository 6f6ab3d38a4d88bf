// Commands that read and write the text register: net reading, net writing and row reading.

ghost use Rattle.std.specs.Prelude.{◌≤◌, length};

use crate::script::Script;
use crate::state::{BYTE_ROOM, Text};
use logfile::Row;
use machine::answer::{Answer, Reply, answered};
use machine::buffers::{fill, is_untouched};
use machine::registers::{Register, Registers};

// readnet R: reads the text as a net file; R becomes what it returns.
pub fn readnet(
    registers: &mut Registers,
    r: Register,
    args: &[u32],
    text: &Text,
) -> Option<Answer<'static>> {
    if !args.is_empty() {
        return None;
    }
    let read = registers.keep(r, netfile::read_net(text.as_slice()));
    Some(answered(read, |_| Answer::Done))
}

// writenet R N: writes R into a buffer of N bytes; if that isn't refused the text register becomes what was written.
pub fn writenet(
    registers: &Registers,
    numbers: &[u64],
    text: &mut Text,
    bytes: &mut [u8],
) -> Option<Reply<'static>> {
    let [r, room] = *numbers else {
        return None;
    };
    let r = Register::try_from(r).ok()?;
    // By comparisons and no `get_mut`, and with the most that there are too: so the compiler knows that a place has 32 bits, and takes
    // remainders of it in half the time.
    if (BYTE_ROOM as u64) < room || (bytes.len() as u64) < room {
        return None;
    }
    let lent = &mut bytes[..room as usize];
    fill(lent);
    let written = netfile::write_net(*registers.get(r), lent);
    let length = written.map_or(0, |n| n as usize);
    if written.is_ok() {
        text.set(lent.get(..length)?)?;
    }
    Some(Reply {
        answer: answered(written, |n| Answer::Value(u64::from(n))),
        changed: !is_untouched(lent, length),
    })
}

// text N: the text register becomes the N bytes that follow, behind which an LF must stand. Bytes that it can't take are passed
// over all the same, as they are no lines.
pub fn text(text: &mut Text, numbers: &[u64], script: &mut Script) -> Option<Answer<'static>>
    ensures { length script.new.rest.now ≤ length script.old.rest.now }
{
    let [n] = *numbers else {
        return None;
    };
    text.set(script.next_text(n as usize)?)?;
    Some(Answer::Done)
}

// show: the text register.
pub fn show<'t>(text: &'t Text, numbers: &[u64]) -> Option<Answer<'t>> {
    numbers.is_empty().then_some(Answer::Shown(text.as_slice()))
}

// readrow ROW N: reads row ROW of the text as a log, with a buffer of N words. A trace that is read isn't longer than the buffer; if
// one were, the line would be answered as no command.
pub fn readrow<'w>(text: &Text, numbers: &[u64], words: &'w mut [u32]) -> Option<Reply<'w>> {
    let [row, room] = *numbers else {
        return None;
    };
    let lent = words.get_mut(..room as usize)?;
    fill(lent);
    let read = logfile::read_row(text.as_slice(), row, lent);
    let length = match read {
        Ok(Some(row)) => row.length as usize,
        _ => 0,
    };
    let changed = !is_untouched(lent, length);
    let trace = lent.get(..length)?;
    Some(Reply {
        answer: answered(read, |row| row_answer(row, trace)),
        changed,
    })
}

fn row_answer(row: Option<Row>, trace: &[u32]) -> Answer<'_> {
    match row {
        Some(row) => Answer::Row {
            sessions: row.sessions,
            trace,
        },
        None => Answer::End,
    }
}
