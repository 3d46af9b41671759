// The bench console: lines from standard input, answers to standard output.
#![tactic(auto)]

fn main(rt: HostRuntime) {
    commands::serve(&mut rt.stdin(), &mut rt.stdout());
}
