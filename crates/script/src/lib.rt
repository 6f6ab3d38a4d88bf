// Scripts of calls: every call of the library that paper 01 lists, made from lines of text, so that vectors can be run by a
// program and compared. docs/SCRIPTS.md lists the commands and their answers. Four registers hold net records, and one
// more holds a text.
//
// This is a test tool. It is proved safe and to end; what a call answers is what the call's own contract says.

#![tactic(auto)]

mod line;
mod log_calls;
mod net_calls;
mod script;
mod sequence_calls;
mod state;
mod table_calls;

use files::{print, read_input};
use line::{is_comment, run_line};
use machine::buffers::room;
use machine::output::Output;
use script::Script;
use state::State;
use std::io::Input;

// A script has at most this many bytes.
const SCRIPT_BYTES: usize = 4194304;

// Room for a script, and one byte more, so that a longer one is seen to be longer.
const SCRIPT_ROOM: usize = SCRIPT_BYTES + 1;

// Runs the script on standard input and writes its answers to standard output.
pub fn run_script<R: Input + Print + Eprint>(rt: &R) {
    let mut buf = room::<u8, SCRIPT_ROOM>();
    let bytes = read_input(rt, &mut buf);
    if SCRIPT_BYTES < bytes.len() {
        print(rt, b"?\n");
        return;
    }
    run_lines(rt, Script::new(bytes));
}

// Runs the lines one after the other. What no LF ends is no command, unless it is a comment. A loop, since the script is passed to each
// command too and can't be walked beside that.
fn run_lines<R: Print + Eprint>(rt: &R, mut script: Script) {
    let mut state = State::new();
    let mut output = Output::new(rt);
    while let Some(line) = script.next_line() {
        if !is_comment(line) {
            output.line(run_line(&mut state, line, &mut script));
        }
    }
    if !script.is_at_end() && !script.is_at_comment() {
        output.line(None);
    }
    output.flush();
}
