// The report of two files, printed. What is printed is decided by the crate `report`; here the two files are read, each
// when 01's order comes to it, and the report is written.

#![tactic(auto)]

ghost use Rattle.net.specs.Orderly.{orderly};
ghost use Rattle.std.specs.Prelude.{◌≡◌, true};

use files::{print, read_file};
use net::{Net, Refused};
pub use report::ReportKind;
use report::{FILE_BYTES, REPORT_ROOM, read_checked, report_log, write_refusal};
use std::rt::Files;

// Room for a file and one byte more, so that a longer one is seen to be longer.
const FILE_ROOM: usize = FILE_BYTES + 1;

// Prints the report of a net file and a log file, and answers whether all of it could be printed, as `print` does. The log is
// opened only after the net has passed.
pub fn print_report<R: Files + Print + Eprint>(
    rt: &R,
    kind: ReportKind,
    net_path: &[u8],
    log_path: &[u8],
) -> bool {
    let mut text = [0u8; FILE_ROOM];
    let read = read_checked(read_file(rt, net_path, &mut text));
    match read.answer {
        Ok(()) => print_log(rt, kind, read.net, log_path, &mut text),
        Err(refused) => print_refusal(rt, refused),
    }
}

// Prints the refusal of a net file.
fn print_refusal<R: Print + Eprint>(rt: &R, refused: Refused) -> bool {
    let mut out = [0u8; REPORT_ROOM];
    let n = write_refusal(&mut out, b"net", refused);
    print(rt, &out[..n])
}

// Prints the report of a log file in a net that has been checked. The file is read into `text`.
fn print_log<R: Files + Print + Eprint>(
    rt: &R,
    kind: ReportKind,
    net: Net,
    path: &[u8],
    text: &mut [u8],
) -> bool
    requires { orderly net ≡ true }
{
    let mut out = [0u8; REPORT_ROOM];
    let k = report_log(kind, net, read_file(rt, path, text), &mut out);
    print(rt, &out[..k])
}
