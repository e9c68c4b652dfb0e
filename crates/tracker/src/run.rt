// A run of edits arrives: the history is checked once for all of them.
ghost use Rattle.std.specs.Prelude.{◌≡◌, true, ◌*◌, ◌≤◌, length};
ghost use Rattle.tracker.specs.Rows.{is_history};
ghost use Rattle.tracker.specs.Batches.{edits, batch, RunLeaves};

use crate::arrive::arrive_row;
use crate::check::check;
use span::refusal::Refusal;

// How many edits were taken, and what refused the one after them, if one was refused.
#[derive(Clone, Copy)]
pub struct Run {
    pub taken: usize,
    pub outcome: Result<(), Refusal>,
}

// The edits in the rows of a batch arrive one after another, up to and including the first that is refused.
pub fn arrive_all(s: &mut [u8], t: &mut [u8], e: &mut [u8], rows: &[u8]) -> Run
    ensures { RunLeaves (batch rows.now) result s.old t.old e.old s.new t.new e.new }
{
    let n = rows.len() / 256;
    if n == 0 {
        return Run {
            taken: 0,
            outcome: Ok(()),
        };
    }
    if !check(s, t, e) {
        return Run {
            taken: 0,
            outcome: Err(Refusal::Store),
        };
    }
    arrive_rows(s, t, e, rows, n)
}

// The same of n rows, where the history is well formed.
pub fn arrive_rows(s: &mut [u8], t: &mut [u8], e: &mut [u8], rows: &[u8], n: usize) -> Run
    requires { (is_history s.old t.old e.old ≡ true) × (n * 256 ≤ length rows.now) }
    ensures { RunLeaves (edits n rows.now) result s.old t.old e.old s.new t.new e.new }
{
    for i in 0..n {
        let outcome = arrive_row(s, t, e, &rows[i * 256..]);
        if outcome.is_err() {
            return Run { taken: i, outcome };
        }
    }
    Run {
        taken: n,
        outcome: Ok(()),
    }
}
