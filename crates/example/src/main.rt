// Learns a checkout in two orders, checks it, and replays two sessions and a log on it. The steps are 0 cart, 1 address, 2 payment,
// 3 order.

#![tactic(auto)]

use net::{Net, Refused};
use obligations::SEQUENCE_WORDS;
use search::Outcome;

fn main(rt: HostRuntime) {
    // 0 and 3 are activities and differ, so this isn't refused.
    let made = net::fresh(0, 3);
    // Cart makes address and payment due, and order waits for both.
    let proposed = [0, 0, 6, 1, 1, 8, 2, 1, 8, 3, 6, 0];
    let learned = sequences::learn(made.net, &proposed);
    say_answer(&rt, "learned", learned.answer);
    // A session without an address: the goods are picked up.
    let session = [0, 2, 3];
    let followed = sequences::follow(learned.net, &session);
    say_answer(&rt, "learned", followed.answer);
    let net = followed.net;
    // Learned in the other order it is the same net, word for word.
    let other = sequences::follow(made.net, &session);
    let other = sequences::learn(other.net, &proposed);
    say(&rt, "same", u64::from(net == other.net));
    say_answer(&rt, "passed", walks::check(net));
    say_replayed(&rt, net, &[0, 2, 1, 3]);
    say_replayed(&rt, net, &[0, 1, 3]);
    // Two sessions went the first way, and one the second.
    say_share(&rt, net, b"sessions,trace\r\n2,0 2 1 3\r\n1,0 1 3\r\n");
}

// Prints a call's number behind a word, or its refusal.
fn say_answer<R: Print>(rt: &R, word: &str, answer: Result<u32, Refused>) {
    match answer {
        Ok(n) => say(rt, word, u64::from(n)),
        Err(refused) => say_refused(rt, refused),
    }
}

// Replays a session with a budget of 1,000,000 trials. A buffer of three words for each of the most positions is enough for
// every trace; if the answer is Found the sequence stands at its front.
fn say_replayed<R: Print>(rt: &R, net: Net, trace: &[u32]) {
    let mut sequence = [0u32; SEQUENCE_WORDS];
    match search::replay(net, trace, 1000000, &mut sequence) {
        Ok(Outcome::Found { trials }) => say(rt, "found", trials),
        Ok(Outcome::Failed { trials }) => say(rt, "none", trials),
        Ok(Outcome::Spent { trials }) => say(rt, "spent", trials),
        Err(refused) => say_refused(rt, refused),
    }
}

// Prints how many sessions in a thousand fit, of a log whose rows are each replayed with a budget of 1,000,000 trials.
fn say_share<R: Print>(rt: &R, net: Net, log: &[u8]) {
    match wholelog::share(net, log, 1000000) {
        Ok(figures) => say(rt, "fitting", figures.per_thousand),
        Err(of) => say_refused(rt, of.refused()),
    }
}

fn say_refused<R: Print>(rt: &R, refused: Refused) {
    say(rt, "refused by", u64::from(refused.refusal.number()));
    say(rt, "at", u64::from(refused.place));
}

// Prints a word and a number on a line.
fn say<R: Print>(rt: &R, word: &str, n: u64) {
    let _ = println!(rt; "{word} {n}");
}
