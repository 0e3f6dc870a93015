// The rehearsal program (document 01, 'The rehearsal program'): a schedule on standard input, its answers on standard output.
#![tactic(auto)]

fn main(rt: HostRuntime) {
    stream::run(&mut rt.stdin(), &mut rt.stdout());
}
