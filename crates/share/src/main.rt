// Reads net.csv and log.csv in the current folder and prints the share of fitting sessions (paper 02,
// (vi)).

#![tactic(auto)]

use file_report::{ReportKind, print_report};

fn main(rt: HostRuntime) {
    if print_report(&rt, ReportKind::Share, b"net.csv", b"log.csv") {
        files::close_output(&rt);
    }
}
