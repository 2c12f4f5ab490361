#![tactic(auto)]

// Applies the record stream of standard input to a fresh machine, and writes what it prints to standard output.
fn main(rt: HostRuntime) {
    let mut input = rt.stdin();
    let _ = stream_io::run_descriptor(&rt, &mut input, "standard input");
}
