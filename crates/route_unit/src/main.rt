// The program of the route unit: reads the card `unit.card`, then a call from each line of standard input, and prints its answer.
#![tactic(auto)]

fn main(rt: HostRuntime) {
    let mut input = rt.stdin();
    let mut output = rt.stdout();
    program_serve::run(&rt, b"unit.card", &mut input, &mut output);
}
