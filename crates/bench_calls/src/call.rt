// The calls that are timed.

use std::fmt;

#[derive(Clone, Copy)]
pub enum Call {
    Put,
    Learn,
    Check,
    Judge,
    ReadNet,
    ReadRow,
}

impl Call {
    // Each at the place of its number.
    pub const ALL: [Call; 6] = [
        Call::Put,
        Call::Learn,
        Call::Check,
        Call::Judge,
        Call::ReadNet,
        Call::ReadRow,
    ];
}

// A number that is no call's.
#[derive(Clone, Copy)]
pub struct NoCall;

impl TryFrom<u32> for Call {
    type Error = NoCall;

    fn try_from(number: u32) -> Result<Call, NoCall> {
        Call::ALL.get(number as usize).copied().ok_or(NoCall)
    }
}

impl fmt::Display for Call {
    fn fmt<W: fmt::Write>(&self, f: &mut fmt::Formatter<W>) -> fmt::Result {
        f.pad(match self {
            Call::Put => "put",
            Call::Learn => "learn",
            Call::Check => "check",
            Call::Judge => "judge",
            Call::ReadNet => "read_net",
            Call::ReadRow => "read_row",
        })
    }
}
