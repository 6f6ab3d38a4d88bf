// Runs a script of calls on standard input; its answers are compared with those of an independent implementation of the
// papers.

#![tactic(auto)]

fn main(rt: HostRuntime) {
    script::run_script(&rt);
}
