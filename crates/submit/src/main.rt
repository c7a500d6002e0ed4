// The program: reads a party and its requests from standard input and prints what each is answered.
#![tactic(auto)]

use std::io;

fn main(rt: HostRuntime) -> io::Result<()> {
    terminal::run(&rt)
}
