// What is to be written to standard output, gathered in a buffer that is written when it is full.

ghost use Rattle.std.specs.Prelude.{◌≤◌};
ghost use Rattle.machine.specs.declared.output.TheConstants.{OUT_ROOM};

use crate::answer::{Answer, Reply};
use std::fmt;
use std::fmt::Write;

// Room for answers.
const OUT_ROOM: usize = 65536;

// What is gathered: the first `len` bytes of an array, and no `Vec`, since the programs use no heap.
#[derive(Drop)]
pub struct Output<'a, R> {
    rt: &'a R,
    buf: [u8; OUT_ROOM],
    len: usize,
    ghost within: { len ≤ OUT_ROOM },
}

impl<'a, R: Print + Eprint> Output<'a, R> {
    pub fn new(rt: &'a R) -> Output<'a, R> {
        Output {
            rt,
            buf: [0; OUT_ROOM],
            len: 0,
        }
    }

    // Adds what a line is replied, which is `?` where it is no command.
    pub fn line(&mut self, replied: Option<Reply>) {
        match replied {
            Some(reply) => self.reply(reply),
            None => self.bytes(b"?\n"),
        }
    }

    // Adds a reply's line, and the bytes that it shows with the end of a line behind them.
    fn reply(&mut self, reply: Reply) {
        // Adding never fails.
        let _ = write!(self, "{reply}");
        if let Answer::Shown(text) = reply.answer {
            self.bytes(text);
            self.bytes(b"\n");
        }
    }

    // Adds bytes. More than the buffer holds are written at once.
    fn bytes(&mut self, bytes: &[u8]) {
        if OUT_ROOM - self.len < bytes.len() {
            self.flush();
        }
        if OUT_ROOM - self.len < bytes.len() {
            files::print(self.rt, bytes);
            return;
        }
        let end = self.len + bytes.len();
        self.buf[self.len..end].copy_from_slice(bytes);
        self.len = end;
    }

    // Writes what is gathered.
    pub fn flush(&mut self) {
        files::print(self.rt, &self.buf[..self.len]);
        self.len = 0;
    }
}

impl<'a, R: Print + Eprint> fmt::Write for Output<'a, R> {
    fn write_str(&mut self, s: &str) -> fmt::Result {
        self.bytes(s.as_bytes());
        Ok(())
    }
}
