// The program: blocks from standard input, lines to standard output.
#![tactic(auto)]

use std::io;

fn main(rt: HostRuntime) -> io::Result<()> {
    stream::run(&rt)
}
