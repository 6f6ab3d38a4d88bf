// A line of a script: the command that its word names is run with its numbers.

ghost use Rattle.std.specs.Prelude.{◌≤◌, length};

use crate::script::Script;
use crate::state::{State, Text};
use crate::{log_calls, net_calls, sequence_calls, table_calls};
use machine::answer::{Answer, Reply};
use machine::numbers::{NUMBERS, read_numbers, words_from};
use machine::registers::{Register, Registers};
use text::fields::split;

// Whether a line is a comment, which isn't run.
pub fn is_comment(line: &[u8]) -> bool {
    line.starts_with(b"#")
}

// Runs a line. It is no command if a field behind its word is no number.
pub fn run_line<'m>(state: &'m mut State, line: &[u8], script: &mut Script) -> Option<Reply<'m>>
    ensures { length script.new.rest.now ≤ length script.old.rest.now }
{
    let mut fields = split(line, b' ');
    let word = fields.next()?;
    let mut buf = [0u64; NUMBERS];
    let numbers = read_numbers(fields, &mut buf)?;
    run_command(state, word, numbers, script)
}

// Runs the command that a word names.
fn run_command<'m>(
    state: &'m mut State,
    word: &[u8],
    numbers: &[u64],
    script: &mut Script,
) -> Option<Reply<'m>>
    ensures { length script.new.rest.now ≤ length script.old.rest.now }
{
    let State {
        registers,
        text,
        words,
        bytes,
    } = state;
    match word {
        b"text" => Some(table_calls::text(text, numbers, script)?.into()),
        b"show" => Some(table_calls::show(text, numbers)?.into()),
        b"readrow" => table_calls::readrow(text, numbers, words),
        b"writenet" => table_calls::writenet(registers, numbers, text, bytes),
        b"replay" => sequence_calls::replay(registers, numbers, words),
        b"share" => Some(log_calls::share(registers, numbers, text)?.into()),
        _ => Some(run_on_register(registers, text, words, word, numbers)?.into()),
    }
}

// Runs one of the other commands: its first number is a register's, and the rest are words. Most take the registers, the register and
// the words as they are, and no struct of the three: it would be made here and taken apart in each.
fn run_on_register<'m>(
    registers: &mut Registers,
    text: &Text,
    words: &'m mut [u32],
    word: &[u8],
    numbers: &[u64],
) -> Option<Answer<'m>> {
    let [first, rest @ ..] = numbers else {
        return None;
    };
    let r = Register::try_from(*first).ok()?;
    let mut buf = [0u32; NUMBERS];
    let args = words_from(rest, &mut buf)?;
    match word {
        b"poke" => registers.poke(r, args),
        b"peek" => registers.peek(r, args, words),
        b"copy" => net_calls::copy(registers, r, args),
        b"same" => net_calls::same(registers, r, args),
        b"fresh" => net_calls::fresh(registers, r, args),
        b"put" => net_calls::put(registers, r, args),
        b"contained" => net_calls::contained(registers, r, args),
        b"check" => net_calls::check(registers, r, args),
        b"judge" => Some(sequence_calls::judge(registers, r, args)),
        b"peak" => Some(sequence_calls::peak(registers, r, args)),
        b"learn" => Some(sequence_calls::learn(registers, r, args)),
        b"follow" => Some(sequence_calls::follow(registers, r, args)),
        b"readnet" => table_calls::readnet(registers, r, args, text),
        _ => None,
    }
}
