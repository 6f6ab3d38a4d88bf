// Runs a script of calls on standard input: each limit at, below and above it, each refusal of each call, and disorderly
// records of every kind. Its answers are compared with those that were derived from the papers by hand. It does what
// `test_conformance` does, and is a program of its own since a program has one input and one output to compare.

#![tactic(auto)]

fn main(rt: HostRuntime) {
    script::run_script(&rt);
}
