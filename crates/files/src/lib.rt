// Files and standard streams as a program needs them. A file is read whole or not at all: a read that fails must not pass
// for the file's end, since half a net may say "none" where the whole one has a route. What can't be opened, read or
// written is said on standard error, with the system's reason. So what is answered is what there is, or whether it was written,
// and no `Result`: no error is left to hand on.
//
// A file is named by bytes: what is no text names no file, and `&str` would ask more of callers.
//
// No contract of std says what a file holds, so the contracts of the public functions give lengths only. What is read of a
// reader whose bytes are known, and written to such a writer, is said in full by the functions that they call.

#![tactic(auto)]

mod moving;

ghost use Rattle.std.specs.Prelude.{◌<◌, ◌≤◌, length};
ghost use Rattle.std.specs.Io.KnownBytes.{Consumes, IsAtEnd};

use moving::{read_whole, write_whole};
use std::fmt::InlineText;
use std::fs::{File, OpenFile};
use std::io::{ErrorKind, Input, Read};
use std::rt::Files;
use std::{fs, io};

// Room for a reason; of a longer one std keeps the front.
const REASON: usize = 256;

// Where the system shows a program its own standard output.
const OUTPUT: &str = "/dev/stdout";

// Reads a file into the buffer and returns what was read. A file that can't be opened, or of which any read fails, is taken as
// empty. Of a longer file the front is read, as much as the buffer holds.
pub fn read_file<'b, R: Files + Eprint>(rt: &R, path: &[u8], buf: &'b mut [u8]) -> &'b [u8]
    ensures { length result.now ≤ length buf.old }
{
    let Ok(name) = str::from_utf8(path) else {
        let error = io::Error::from(ErrorKind::InvalidFilename);
        say(rt, "open", "a file whose name is no text", error);
        return &[];
    };
    match File::open(rt, name) {
        Ok(mut file) => read_or_say(rt, &mut file, name, buf),
        Err(error) => {
            say(rt, "open", name, error);
            &[]
        }
    }
}

// The same of standard input.
pub fn read_input<'b, R: Input + Eprint>(rt: &R, buf: &'b mut [u8]) -> &'b [u8]
    ensures { length result.now ≤ length buf.old }
{
    read_or_say(rt, &mut rt.reader(), "standard input", buf)
}

// Writes all bytes to standard output, or says that it can't. Answers whether it could.
pub fn print<R: Print + Eprint>(rt: &R, bytes: &[u8]) -> bool {
    match write_whole(&mut io::writer(rt), bytes) {
        Ok(()) => true,
        Err(error) => {
            say(rt, "write", "standard output", error);
            false
        }
    }
}

// Has what was printed brought to where it stays, if standard output is a file: some file systems tell only then that it didn't
// arrive. Closing it would tell as well, but std closes no output.
pub fn close_output<R: Files + Eprint>(rt: &R) {
    if let Err(error) = keep_output(rt) {
        say(rt, "write", "standard output", error);
    }
}

// Reads what is open, or says that it can't be read. What isn't taken as empty is read to its end or as far as the buffer
// holds it.
fn read_or_say<'b, R: Eprint, F: Read>(
    rt: &R,
    file: &mut F,
    name: &str,
    buf: &'b mut [u8],
) -> &'b [u8]
    ensures bound { length result.now ≤ length buf.old }
    ensures bytes { 0 < length result.now → Consumes (F.remaining file.old) (F.remaining file.new) result.now }
    ensures whole { 0 < length result.now → length result.now < length buf.old → IsAtEnd (F.remaining file.new) }
{
    match read_whole(file, buf) {
        Ok(n) => &buf[..n],
        Err(error) => {
            say(rt, "read", name, error);
            &[]
        }
    }
}

// Writes a line to standard error: what can't be done, to which file, and why. If that fails too, there is nobody to tell.
fn say<R: Eprint>(rt: &R, what: &str, name: &str, error: io::Error) {
    let text = InlineText::<REASON>::of(error);
    let reason = without_number(text.as_str());
    let _ = eprintln!(rt; "can't {what} {name}: {reason}");
}

// A reason as the system words it: std puts the error's number behind it.
fn without_number(reason: &str) -> &str {
    reason
        .split_once(" (os error ")
        .map_or(reason, |(words, _)| words)
}

// Brings standard output to the disk, if it is a file. Of a pipe or a terminal there is nothing to bring.
fn keep_output<R: Files>(rt: &R) -> io::Result<()> {
    let Ok(about) = fs::metadata(rt, OUTPUT) else {
        return Ok(());
    };
    if !about.is_file() {
        return Ok(());
    }
    match File::open(rt, OUTPUT) {
        Ok(file) => file.sync_all(),
        Err(_) => Ok(()),
    }
}
