// The ticket program: one ticket a line from standard input; prints refusal and value.
#![tactic(auto)]

use console::Streams;
use std::io;

fn main(rt: HostRuntime) -> io::Result<()> {
    let mut streams = Streams::new(rt.stdin(), rt.stdout());
    console::serve(&mut streams, false);
    streams.result()
}
