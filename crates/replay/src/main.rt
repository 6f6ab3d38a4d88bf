// Reads net.csv and log.csv in the current folder and prints the report of them (paper 01, "The tables").

#![tactic(auto)]

use file_report::{ReportKind, print_report};

fn main(rt: HostRuntime) {
    if print_report(&rt, ReportKind::Replays, b"net.csv", b"log.csv") {
        files::close_output(&rt);
    }
}
