// A whole log: a fault anywhere in it, and its rows one after the other.

ghost use Rattle.std.specs.Prelude.{◌≡◌, ◌≤◌};
ghost use Rattle.obligations.specs.Limits.{positions};
ghost use Rattle.net.specs.Refusals.{means};
ghost use Rattle.wholelog.specs.Computed.{log_says};
ghost use Rattle.wholelog.specs.Passed.{cursor_past, AllGiven};

use logfile::{Cursor, LOG_ROWS, Row, next_row, read_row};
use net::{Net, Refused};
use obligations::{POSITIONS, SEQUENCE_WORDS};
use search::{Outcome, replay_lent};

// Reads a whole log for a fault. The row after the last that a log may have is asked for, as every fault before it counts.
pub fn check_log(log: &[u8]) -> Result<(), Refused>
    ensures { means (λ _. 0) result ≡ log_says log.now }
{
    let mut trace = [0u32; POSITIONS];
    match read_row(log, u64::from(LOG_ROWS) + 1, &mut trace) {
        Ok(_) => Ok(()),
        Err(refused) => Err(refused),
    }
}

// The rows of a log, one after the other: `given` so many so far, of which the last one's trace is at the front of `trace`.
#[derive(Drop)]
pub struct Rows<'t> {
    text: &'t [u8],
    cursor: Cursor,
    given: u32,
    trace: [u32; POSITIONS],
    length: usize,
    ghost all_given: { AllGiven text.now given },
    ghost stands: { cursor ≡ cursor_past text.now given },
    ghost in_front: { length ≤ positions },
}

// A row that was replayed: its number, its sessions, and how its search ended.
#[derive(Clone, Copy)]
pub struct Replayed {
    pub row: u32,
    pub sessions: u32,
    pub outcome: Outcome,
}

impl<'t> Rows<'t> {
    ghost use Rattle.std.specs.Prelude.{[], MatchOption};
    ghost use Rattle.net.specs.Inner.{SidesFit};
    ghost use Rattle.search.specs.Replay.{checked_says, checked_gives};
    ghost use Rattle.wholelog.specs.Computed.{rows_of};
    ghost use Rattle.wholelog.specs.Left.{rows_left, rows_given, last_trace, NextGiven, NextReplayed};

    // No row is given yet.
    pub fn new(log: &'t [u8]) -> Rows<'t>
        ensures left { rows_left result ≡ rows_of log.now }
        ensures none_given { rows_given result ≡ 0 }
        ensures no_trace { last_trace result ≡ [] }
    {
        Rows {
            text: log,
            cursor: logfile::start(),
            given: 0,
            trace: [0u32; POSITIONS],
            length: 0,
        }
    }

    // Gives the next row, if there is one. A line that can't be read as a row ends them, as the log's end does: `check_log` tells which
    // it is. No `Iterator`: its items can't be lent out of the one buffer here.
    pub fn next(&mut self) -> Option<Row>
        ensures { NextGiven self.old result self.new }
    {
        let read = next_row(self.text, self.cursor, &mut self.trace);
        // Not `Ok(Some(row))` at once: where that fails a proof does not learn that no row is there.
        let Ok(there) = read.answer else {
            return None;
        };
        let row = there?;
        self.cursor = read.cursor;
        self.given += 1;
        self.length = row.length as usize;
        Some(row)
    }

    // Gives the next row, replayed on a lent net that has passed the check, with the whole budget. A sequence that is found is at the
    // front of `bindings`, which a caller lends, so that it isn't made anew for each row.
    pub fn replay_next(
        &mut self,
        net: &Net,
        budget: u64,
        bindings: &mut [u32; SEQUENCE_WORDS],
    ) -> Option<Replayed>
        requires { SidesFit net.now.inputs × SidesFit net.now.outputs }
        ensures row { NextReplayed (λ t. checked_says net.now t budget) self.old result self.new }
        ensures buffer { MatchOption result (bindings.new ≡ bindings.old) (λ _. bindings.new ≡ checked_gives net.now (last_trace self.new) budget bindings.old) }
    {
        let row = self.next()?;
        let outcome = replay_lent(net, self.trace(), budget, bindings);
        Some(Replayed {
            row: self.given,
            sessions: row.sessions,
            outcome,
        })
    }

    // How many rows were given, and so the last one's number.
    pub fn given(&self) -> u32
        ensures { result ≡ rows_given self.now }
    {
        self.given
    }

    // The trace of the row given last.
    pub fn trace(&self) -> &[u32]
        ensures { result.now ≡ last_trace self.now }
    {
        &self.trace[..self.length]
    }
}
