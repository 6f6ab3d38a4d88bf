// The share of fitting sessions (paper 02, (vi)): of how many sessions in a thousand the net explains the trace, with what is left
// over.

ghost use Rattle.std.specs.Prelude.{◌≡◌};
ghost use Rattle.net.specs.Inner.{SidesFit};
ghost use Rattle.search.specs.Replay.{checked_says};
ghost use Rattle.wholelog.specs.Share.{log_share_means, share_means};
ghost use Rattle.wholelog.specs.Computed.{rows_of, share_out, checked_share, share_says};
ghost use Rattle.wholelog.specs.Sums.{sums_of};

use crate::rows::{Rows, check_log};
use net::{Net, Refusal, Refused};
use obligations::SEQUENCE_WORDS;
use search::Outcome;

// The figures of a log. Of a thousand sessions `per_thousand` fit, and `remainder`, which is below `all`, is left over:
// 1000 * fitting = per_thousand * all + remainder. Sessions that are spent are in `all` and not in `fitting`.
#[derive(Clone, Copy, Debug, PartialEq, Eq)]
pub struct Figures {
    pub per_thousand: u64,
    pub remainder: u64,
    pub fitting: u64,
    pub spent: u64,
    pub all: u64,
}

// A refusal of the net or of the log: its place is an activity or a line.
#[derive(Clone, Copy, Debug, PartialEq, Eq)]
pub enum RefusedOf {
    Net(Refused),
    Log(Refused),
}

impl RefusedOf {
    ghost use Rattle.wholelog.specs.Share.{its_refusal};

    // The refusal, of either.
    pub fn refused(self) -> Refused
        ensures { result ≡ its_refusal self }
    {
        match self {
            RefusedOf::Net(refused) => refused,
            RefusedOf::Log(refused) => refused,
        }
    }
}

// The share of the log's sessions whose traces the net explains, each row replayed with this budget.
pub fn share(net: Net, log: &[u8], budget: u64) -> Result<Figures, RefusedOf>
    ensures { share_means result ≡ share_says net log.now budget }
{
    if let Err(refused) = walks::check(net) {
        return Err(RefusedOf::Net(refused));
    }
    match share_lent(&net, log, budget) {
        Ok(figures) => Ok(figures),
        Err(refused) => Err(RefusedOf::Log(refused)),
    }
}

// The share in a lent net that has passed the check: only the log is left to refuse. All its lines are read before a row is replayed.
pub fn share_lent(net: &Net, log: &[u8], budget: u64) -> Result<Figures, Refused>
    requires { SidesFit net.now.inputs × SidesFit net.now.outputs }
    ensures { log_share_means result ≡ checked_share net.now log.now budget }
{
    check_log(log)?;
    let sums = replay_rows(net, log, budget);
    // A row has one session at least.
    if sums.all == 0 {
        return Err(Refusal::NoRows.at(0));
    }
    Ok(sums.figures())
}

// The sessions of the rows that were replayed: of those found, of those spent, and of all.
#[derive(Clone, Copy)]
struct Sums {
    fitting: u64,
    spent: u64,
    all: u64,
}

impl Sums {
    ghost use Rattle.std.specs.Prelude.{◌<◌};
    ghost use Rattle.wholelog.specs.Sums.{Within, sums_with};

    // With a row more.
    fn with(self, sessions: u32, outcome: Outcome) -> Sums
        requires { Within (sums_with self sessions outcome) }
        ensures { result ≡ sums_with self sessions outcome }
    {
        let sessions = u64::from(sessions);
        let all = self.all + sessions;
        match outcome {
            Outcome::Found { .. } => Sums {
                fitting: self.fitting + sessions,
                all,
                ..self
            },
            Outcome::Failed { .. } => Sums { all, ..self },
            Outcome::Spent { .. } => Sums {
                spent: self.spent + sessions,
                all,
                ..self
            },
        }
    }

    // The figures. Nothing wraps: a thousand times the most sessions of a log are far below 2^64.
    fn figures(self) -> Figures
        requires some { 0 < self.all }
        requires within { Within self }
        ensures { result ≡ share_out self.fitting self.spent self.all }
    {
        let thousandfold = 1000 * self.fitting;
        Figures {
            per_thousand: thousandfold / self.all,
            remainder: thousandfold % self.all,
            fitting: self.fitting,
            spent: self.spent,
            all: self.all,
        }
    }
}

// Replays the rows of a log that reads whole.
fn replay_rows(net: &Net, log: &[u8], budget: u64) -> Sums
    requires { SidesFit net.now.inputs × SidesFit net.now.outputs }
    ensures { result ≡ sums_of (λ t. checked_says net.now t budget) (rows_of log.now) }
{
    let mut bindings = [0u32; SEQUENCE_WORDS];
    let mut sums = Sums {
        fitting: 0,
        spent: 0,
        all: 0,
    };
    let mut rows = Rows::new(log);
    while let Some(row) = rows.replay_next(net, budget, &mut bindings) {
        sums = sums.with(row.sessions, row.outcome);
    }
    sums
}
