// The ticket program with the head and the rows in use printed after each answer: a wrong link is visible.
#![tactic(auto)]

use console::Streams;
use std::io;

fn main(rt: HostRuntime) -> io::Result<()> {
    let mut streams = Streams::new(rt.stdin(), rt.stdout());
    console::serve(&mut streams, true);
    streams.result()
}
