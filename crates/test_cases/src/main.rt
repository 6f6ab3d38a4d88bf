// Prints the reports of numbered cases, one after the other, and then their shares of fitting sessions. Case 7 is the files 07.net and
// 07.log in the current folder.
// What is printed is compared. The reports of cases 1 to 40 come from an independent implementation of the papers, and those of the
// others, made by tests/cases/make, follow from the papers by hand; the shares are counted there from the reports.

#![tactic(auto)]

use file_report::{ReportKind, print_report};
use std::fmt::InlineText;
use std::rt::Files;

const CASES: u8 = 67;

// Room for a file's name.
const PATH: usize = 6;

// Prints the report of one case.
fn print_case<R: Files + Print + Eprint>(rt: &R, kind: ReportKind, case: u8) {
    let net = InlineText::<PATH>::of(format_args!("{case:02}.net"));
    let log = InlineText::<PATH>::of(format_args!("{case:02}.log"));
    print_report(rt, kind, net.as_str().as_bytes(), log.as_str().as_bytes());
}

fn main(rt: HostRuntime) {
    for kind in [ReportKind::Replays, ReportKind::Share] {
        for case in 1..=CASES {
            print_case(&rt, kind, case);
        }
    }
}
