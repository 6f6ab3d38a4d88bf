// Bytes from and to what is open, all of them. A call that a signal interrupts is tried again; one that fails otherwise
// ends the reading or writing as failed. Every loop here ends: a call moves at least one byte, and is tried a number of
// times only.

ghost use Rattle.std.specs.Prelude.{◌<◌, IfOk, OnOk, IsErr, IsTrue, length, take};
ghost use Rattle.std.specs.Io.{ReadsAtMost, WritesAtMost};
ghost use Rattle.std.specs.Io.KnownBytes.{Appends, Consumes, IsAtEnd, ReadConsumes, WriteAppends};

use std::io;
use std::io::{ErrorKind, Read, Write};

// How often a call is made, if signals interrupt it each time.
const TRIES: u32 = 1000;

// Reads until the file ends or the buffer is full, and returns how many bytes stand at the buffer's front. They are what
// the reader gave, and if they don't fill the buffer nothing is left in it. std reads until either only into a `Vec`.
pub fn read_whole<R: Read>(reader: &mut R, buf: &mut [u8]) -> io::Result<usize>
    ensures bound { ReadsAtMost result buf.new }
    ensures bytes { IfOk result (λ n. Consumes (R.remaining reader.old) (R.remaining reader.new) (take n buf.new)) }
    ensures end { IfOk result (λ n. n < length buf.new → IsAtEnd (R.remaining reader.new)) }
{
    // The index is what is returned.
    let mut done: usize = 0;
    while done < buf.len() {
        let more = read_some(reader, &mut buf[done..])?;
        if more == 0 {
            return Ok(done);
        }
        done += more;
    }
    Ok(done)
}

// Writes all bytes: a write that fails or takes nothing ends it. A loop, as what is left of the slice shrinks by what was taken. Not
// std's `write_all`, which tries an interrupted write as often as it is interrupted.
pub fn write_whole<W: Write>(writer: &mut W, bytes: &[u8]) -> io::Result<()>
    ensures { OnOk result (Appends (W.contents writer.old) (W.contents writer.new) bytes.now) }
{
    let mut rest = bytes;
    while !rest.is_empty() {
        let more = write_some(writer, rest)?;
        if more == 0 {
            return Err(io::Error::from(ErrorKind::WriteZero));
        }
        rest = &rest[more..];
    }
    Ok(())
}

// One read that no signal interrupts. Not one function with `write_some`: it would take a closure that reads or writes, and ask of it
// that a call which was interrupted moved nothing.
fn read_some<R: Read>(reader: &mut R, buf: &mut [u8]) -> io::Result<usize>
    ensures bound { ReadsAtMost result buf.new }
    ensures bytes { ReadConsumes (R.remaining reader.old) (R.remaining reader.new) result buf.new }
{
    for _ in 1..TRIES {
        let got = reader.read(buf);
        if !interrupted(&got) {
            return got;
        }
    }
    reader.read(buf)
}

// One write that no signal interrupts.
fn write_some<W: Write>(writer: &mut W, bytes: &[u8]) -> io::Result<usize>
    ensures bound { WritesAtMost result bytes.now }
    ensures bytes { WriteAppends (W.contents writer.old) (W.contents writer.new) result bytes.now }
{
    for _ in 1..TRIES {
        let put = writer.write(bytes);
        if !interrupted(&put) {
            return put;
        }
    }
    writer.write(bytes)
}

// Whether a call that answered so was interrupted by a signal.
fn interrupted(answer: &io::Result<usize>) -> bool
    ensures { IsTrue result → IsErr answer.now }
{
    matches!(answer, Err(error) if error.kind() == ErrorKind::Interrupted)
}
