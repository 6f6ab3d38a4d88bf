// Commands on the nets of registers, and those that call fresh, put, contained and check. With a wrong number of arguments a line
// is no command and has no answer.

use machine::answer::{Answer, answered};
use machine::registers::{Register, Registers};
use net::Side;

// copy R S: register R becomes register S.
pub fn copy(registers: &mut Registers, r: Register, args: &[u32]) -> Option<Answer<'static>> {
    let s = other(args)?;
    registers.set(r, *registers.get(s));
    Some(Answer::Done)
}

// same R S: whether two registers are equal in every word.
pub fn same(registers: &Registers, r: Register, args: &[u32]) -> Option<Answer<'static>> {
    let s = other(args)?;
    let same = registers.get(r) == registers.get(s);
    Some(Answer::Value(u64::from(same)))
}

// fresh R S E: register R becomes what fresh of S and E returns.
pub fn fresh(registers: &mut Registers, r: Register, args: &[u32]) -> Option<Answer<'static>> {
    let [start, end] = *args else {
        return None;
    };
    let made = registers.keep(r, net::fresh(start, end));
    Some(answered(made, |_| Answer::Done))
}

// put R SIDE A SET: put on register R. That 0 and 1 are sides is the scripts' rule, and no conversion of `Side`.
pub fn put(registers: &mut Registers, r: Register, args: &[u32]) -> Option<Answer<'static>> {
    let (side, a, set) = match *args {
        [0, a, set] => (Side::Input, a, set),
        [1, a, set] => (Side::Output, a, set),
        _ => return None,
    };
    let put = registers.keep(r, net::put(*registers.get(r), side, a, set));
    Some(answered(put, |new| Answer::Value(u64::from(new))))
}

// contained R S: is R contained in S.
pub fn contained(registers: &Registers, r: Register, args: &[u32]) -> Option<Answer<'static>> {
    let s = other(args)?;
    let contained = net::contained(*registers.get(r), *registers.get(s));
    Some(answered(contained, |yes| Answer::Value(u64::from(yes))))
}

// check R: net check.
pub fn check(registers: &Registers, r: Register, args: &[u32]) -> Option<Answer<'static>> {
    if !args.is_empty() {
        return None;
    }
    let checked = walks::check(*registers.get(r));
    Some(answered(checked, |arcs| Answer::Value(u64::from(arcs))))
}

// The register that the one argument names.
fn other(args: &[u32]) -> Option<Register> {
    let [s] = *args else {
        return None;
    };
    Register::try_from(u64::from(s)).ok()
}
