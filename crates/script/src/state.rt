// What the commands of a script work on.

ghost use Rattle.std.specs.Prelude.{◌≤◌};
ghost use Rattle.script.specs.declared.state.TheConstants.{TEXT_ROOM};

use logfile::LOG_BYTES;
use machine::buffers::room;
use machine::registers::Registers;
use netfile::NET_BYTES;

// Room for the text register: one byte more than a log file may have.
const TEXT_ROOM: usize = LOG_BYTES + 1;

// Room for the longest buffers that are lent to a call.
const WORD_ROOM: usize = 4096;

pub const BYTE_ROOM: usize = NET_BYTES;

// The registers, and the buffers of which parts are lent to calls.
#[derive(Drop)]
pub struct State {
    pub registers: Registers,
    pub text: Text,
    pub words: [u32; WORD_ROOM],
    pub bytes: [u8; BYTE_ROOM],
}

impl State {
    pub fn new() -> State {
        State {
            registers: Registers::new(),
            text: Text::new(),
            words: room(),
            bytes: room(),
        }
    }
}

// The text register: the first `len` bytes of an array, and no `Vec`, since the programs use no heap.
#[derive(Drop)]
pub struct Text {
    bytes: [u8; TEXT_ROOM],
    len: usize,
    ghost within: { len ≤ TEXT_ROOM },
}

impl Text {
    fn new() -> Text {
        Text {
            bytes: room(),
            len: 0,
        }
    }

    pub fn as_slice(&self) -> &[u8] {
        &self.bytes[..self.len]
    }

    // The register becomes these bytes, if it holds as many.
    pub fn set(&mut self, bytes: &[u8]) -> Option<()> {
        self.bytes.get_mut(..bytes.len())?.copy_from_slice(bytes);
        self.len = bytes.len();
        Some(())
    }
}
