// Reads a list of calls of fugue_span.rs with its answers from standard input, makes each call with crate `span` and compares the answers.
// Prints each line whose answer differs or that cannot be read, and then the counts. `tests/span` makes the list and says what a line holds.
#![tactic(auto)]

mod calls;
mod fields;
mod line;
mod tally;

use std::io;
use tally::Tally;

// A proved loop has to end, and nothing says that the input does: so the turns are counted, from a number that no run uses up.
fn main(rt: HostRuntime) -> io::Result<()> {
    let mut input = rt.stdin();
    let mut line = [0u8; 1024];
    let mut tally = Tally::default();
    for _ in 0..u64::MAX {
        if !tally.block(&rt, &mut input, &mut line)? {
            break;
        }
    }
    tally.print(&rt)
}
