// Prints the rows of bench.txt and readings.txt, which stand in the current folder.
#![tactic(auto)]

use std::io;

fn main(rt: HostRuntime) -> io::Result<()> {
    runner::run(&rt, b"bench.txt", b"readings.txt")
}
