// Recorded answers of a rope's and a history's calls: the lane program on this folder's stdin must write its stdout.
#![tactic(auto)]

use session::console::Source;
use std::io;

fn main(rt: HostRuntime) -> io::Result<()> {
    session::run(Source::Standard(rt.stdin()), rt.stdout())
}
