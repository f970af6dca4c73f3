// The program again, over stored blocks: its lines are held to those of the reference program.
#![tactic(auto)]

use std::io;

fn main(rt: HostRuntime) -> io::Result<()> {
    stream::run(&rt)
}
