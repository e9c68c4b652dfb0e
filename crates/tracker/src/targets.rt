// The target ranges of a delete: the ids of the units that it takes, in list order, as ranges joined while consecutive.
// What these ask, the entries have asked before the first write: 15, the delete's ids, and room for the ranges (10).
ghost use Rattle.std.specs.Prelude.{◌≡◌, [], ◌∷◌, ◌+◌, ◌*◌, ◌≤◌, length};
ghost use Rattle.span.specs.Span.{span_code, len_span};
ghost use Rattle.span.specs.Units.{expand};
ghost use Rattle.store.specs.Row.{rows};
ghost use Rattle.rope.specs.Reports.{Taken};
ghost use Rattle.tracker.specs.Rows.{to_range};
ghost use Rattle.tracker.specs.Targets.{targets_of, part_range, Adds, Added, Wrote};

use crate::range::follows;
use crate::row::{Target, get_target, put_target};
use rope::change::Delete;
use span::span::FugueSpan;

// A range goes after the k ranges from range `at` on: it extends the last of them, or is one of its own. The answer is their number.
pub fn add_target(t: &mut [u8], at: usize, k: usize, x: Target) -> usize
    requires { Adds at k (to_range x ∷ []) t.old }
    ensures { Added at k (to_range x ∷ []) result t.old t.new }
{
    let end = at + k;
    if 0 < k {
        let last = get_target(t, end - 1);
        if follows(last, x.id) {
            let both = Target {
                len: last.len + x.len,
                ..last
            };
            put_target(t, end - 1, both);
            return k;
        }
    }
    put_target(t, end, x);
    k + 1
}

// The ids of the units from..to of a row, if there are any.
pub fn add_part(t: &mut [u8], at: usize, k: usize, row: FugueSpan, from: u32, to: u32) -> usize
    requires { Adds at k (part_range row from to) t.old × (span_code row ≡ 0) × (to ≤ len_span row) }
    ensures { Added at k (part_range row from to) result t.old t.new }
{
    if from < to {
        let part = Target {
            id: row.id.inc(from),
            len: to - from,
        };
        add_target(t, at, k, part)
    } else {
        k
    }
}

// The targets of a delete of a list that stands at its context, from range `at` on. The answer is the number of ranges.
pub fn put_targets(s: &[u8], n: usize, t: &mut [u8], at: usize, d: Delete) -> usize
    requires { Taken d n s.now × ((at + length (targets_of d (expand (rows n s.now)))) * 16 ≤ length t.old) }
    ensures { Wrote at (targets_of d (expand (rows n s.now))) result t.old t.new }
{
    let mut left = d;
    let mut k = 0;
    for i in 0..n {
        let row = store::get_row(s, i);
        let part = left.cut(row);
        k = add_part(t, at, k, row, part.from, part.to);
        left = left.after(row);
    }
    k
}
