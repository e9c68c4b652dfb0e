// A session of the lane program: the calls of a script answered one after the other (docs/SCRIPT.md), over a rope or a history in bytes that are lent here.
//
// `input` cuts what is read into lines, `answer` finds the call that a line says and who answers it, `calls` holds the calls of a rope with `entries` for its
// delta, `history_calls` those of a history with `applied` for its deltas, `look` what only reads or repairs the rows, `reply` the words of an answer, `console`
// what is read and written, and how that failed. Each call of a library is one function: a new one is added to `answer` and to its file.
#![tactic(auto)]

pub mod answer;
pub mod applied;
pub mod calls;
pub mod console;
pub mod entries;
pub mod front;
pub mod history_calls;
pub mod input;
pub mod lent;
pub mod look;
pub mod reply;
pub mod state;
pub mod versions;

use console::{Input, Output, Source};
use lent::Lent;
use std::io::Stdout;

// Answers the script that is read, to its end. The rows lent are 8,192 at most, after a header of a row's width; target ranges of 16 bytes, 8,192 at most; the
// edits of a history, a header and 2,000 rows; and an output of 8,192 rows.
pub fn run(source: Source, stdout: Stdout) -> std::io::Result<()> {
    let mut input = Input::new(source);
    let mut output = Output::new(stdout);
    let mut store = [0u8; 589896];
    let mut targets = [0u8; 131072];
    let mut edits = [0u8; 512064];
    let mut out = [0u8; 589824];
    let mut bytes = io::large_buffer();
    let mut text = io::large_buffer();
    let mut lent = Lent {
        store: &mut store,
        targets: &mut targets,
        edits: &mut edits,
        out: &mut out,
    };
    input::lines(&mut input, &mut lent, &mut bytes, &mut output, &mut text);
    console::end(input, output)
}
