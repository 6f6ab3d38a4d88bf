// Makes calls of the library over and over, so that bench/run can time them: `bench_calls CALL COUNT`, where a call is given
// by its number. One line is printed: the call's name, and the sum of the answers of so many calls. With no arguments there
// is such a line for every call, of a few calls each.

#![tactic(auto)]

mod call;
mod nets;
mod repeating;
mod texts;

use call::Call;
use files::read_file;
use net::Net;
use repeating::repeat;
use std::rt::{Env, Files};
use text::decimal::read_number;

// What a refusal counts: more than all other answers together, so that it shows in the sum.
pub const REFUSED: u64 = 1 << 40;

// The files that are read.
const NET: &[u8] = b"net.csv";

const LOG: &[u8] = b"log.csv";

// Room for a file, as much as the program `replay` takes.
const TEXT_ROOM: usize = 65536;

// How often a call is made if the arguments don't say.
const FEW: u32 = 24;

fn main(rt: HostRuntime) {
    let count = argument(&rt, 2).unwrap_or(FEW);
    match argument(&rt, 1).and_then(|number| Call::try_from(number).ok()) {
        Some(call) => print_line(&rt, call, count),
        None => {
            for call in Call::ALL {
                print_line(&rt, call, count);
            }
        }
    }
}

// The number that an argument is, if it is one.
fn argument<R: Env>(rt: &R, k: usize) -> Option<u32> {
    let mut digits = [0u8; 10];
    let n = rt.arg(k, &mut digits).ok()?;
    read_number(&digits[..n], u32::MAX)
}

// Makes a call so often, and prints its line. The name comes first: what can't be read is said on standard error behind it.
fn print_line<R: Files + Print + Eprint>(rt: &R, call: Call, count: u32) {
    let _ = print!(rt; "{call:<10}");
    let sum = sum_of(rt, call, count);
    let _ = println!(rt; "{sum}");
}

// Makes a call so often, and returns the sum of its answers. Calls that grow a net start from a fresh one.
fn sum_of<R: Files + Eprint>(rt: &R, call: Call, count: u32) -> u64 {
    let fresh = net::fresh(0, 4).net;
    let mut buf = [0u8; TEXT_ROOM];
    match call {
        Call::Put => repeat(count, fresh, nets::put),
        Call::Learn => repeat(count, fresh, nets::learn),
        Call::Check => repeat(count, net_in(rt, &mut buf), nets::check),
        Call::Judge => repeat(count, net_in(rt, &mut buf), nets::judge),
        Call::ReadNet => repeat(count, read_file(rt, NET, &mut buf), texts::read_net),
        Call::ReadRow => repeat(count, read_file(rt, LOG, &mut buf), texts::read_row),
    }
}

// The net in the net file; of one that is refused the fresh net of 0 and 1.
fn net_in<R: Files + Eprint>(rt: &R, buf: &mut [u8]) -> Net {
    netfile::read_net(read_file(rt, NET, buf)).net
}
