// A change goes through the list in place, from left to right. Each row is cut into its pieces, and these are pushed on to a queue of
// a few rows, where they join; as each row that is read leaves a place, the queue's first row goes there. The change cuts the list at
// most twice, so that no more than three rows wait, and no row is needed beyond those that the list has before or after.
ghost use Rattle.std.specs.Prelude.{◌≡◌, ◌++◌, ◌+◌, ◌*◌, ◌≤◌, ◌<◌, length};
ghost use Rattle.span.specs.Span.{span_code, len_span, part_span};
ghost use Rattle.span.specs.Units.{expand, join};
ghost use Rattle.store.specs.Row.{rows};
ghost use Rattle.rope.specs.Pieces.{part_of, changed_of, pieces_of, all_pieces, CanChange, change_span};
ghost use Rattle.rope.specs.Applies.{Fit, Waiting, Grown, Applies, Moved, Kept, Counts};

use crate::change::Change;
use crate::stream::push;
use span::span::FugueSpan;

// The units from..to of a row are pushed on to the m rows of q, if there are any. The answer is the number of these rows. (The row is one
// of a well formed list, which the entries asked; the queue has room, as at most three rows wait.)
pub fn push_part(q: &mut [u8], m: usize, row: FugueSpan, from: u32, to: u32) -> usize
    requires { Waiting m q.old × (m * 72 + 72 ≤ length q.old) × (span_code row ≡ 0) × (to ≤ len_span row) }
    ensures { Grown m (part_of row from to) result q.old q.new }
{
    if from < to {
        push(q, m, row.piece(from, to))
    } else {
        m
    }
}

// The same of units that change, which the change can be made in: the entries asked.
pub fn push_changed(q: &mut [u8], m: usize, e: Change, row: FugueSpan, from: u32, to: u32) -> usize
    requires { Waiting m q.old × (m * 72 + 72 ≤ length q.old) × (span_code row ≡ 0) × (to ≤ len_span row) × (from < to → CanChange e (part_span row from to) × (span_code (change_span e (part_span row from to)) ≡ 0)) }
    ensures { Grown m (changed_of e row from to) result q.old q.new }
{
    if from < to {
        push(q, m, e.changed(row.piece(from, to)))
    } else {
        m
    }
}

// The pieces of a row of a well formed list, which the entries asked, where three more rows can wait.
pub fn push_row(q: &mut [u8], m: usize, e: Change, row: FugueSpan) -> usize
    requires { Waiting m q.old × (m * 72 + 216 ≤ length q.old) × Fit e row }
    ensures { Grown m (pieces_of e row) result q.old q.new }
{
    let part = e.cut(row);
    let a = push_part(q, m, row, 0, part.from);
    let b = push_changed(q, a, e, row, part.from, part.to);
    push_part(q, b, row, part.to, row.rle_len())
}

// The first of the m rows of q goes to row w, if it is not the last. The answer is how many went. (Row w has been read.)
pub fn move_first(s: &mut [u8], w: usize, q: &mut [u8], m: usize) -> usize
    requires { (w * 72 + 72 ≤ length s.old) × (m * 72 ≤ length q.old) }
    ensures { Moved w m result s.old q.old s.new q.new }
{
    if 1 < m {
        store::put_row(s, w, store::get_row(q, 0));
        store::remove_rows(q, m, 0, 1);
        1
    } else {
        0
    }
}

// The m rows of q go after the first w rows, where the entries asked for room.
pub fn move_all(s: &mut [u8], w: usize, q: &[u8], m: usize)
    requires { ((w + m) * 72 ≤ length s.old) × (m * 72 ≤ length q.now) }
    ensures { rows (w + m) s.new ≡ rows w s.old ++ rows m q.now }
{
    for j in 0..m {
        store::put_row(s, w + j, store::get_row(q, j));
    }
}

// The change goes through n rows, with a queue of six rows. The answer is the number of rows that they become. (They are a well formed list
// that the change can be made in, with room for what it becomes: the entries asked.)
pub fn apply_with(s: &mut [u8], q: &mut [u8], n: usize, e: Change) -> usize
    requires { Applies e n s.old × (432 ≤ length q.old) }
    ensures { rows result s.new ≡ join (expand (all_pieces e (rows n s.old))) }
{
    let mut left = e;
    let mut w = 0;
    let mut m = 0;
    for i in 0..n {
        let row = store::get_row(s, i);
        m = push_row(q, m, left, row);
        left = left.after(row);
        let k = move_first(s, w, q, m);
        w += k;
        m -= k;
    }
    move_all(s, w, q, m);
    w + m
}

// The same, with a queue of its own.
pub fn apply(s: &mut [u8], n: usize, e: Change) -> usize
    requires { Applies e n s.old }
    ensures { rows result s.new ≡ join (expand (all_pieces e (rows n s.old))) }
{
    let mut q = [0u8; 432];
    apply_with(s, &mut q, n, e)
}

// All but the last of the m rows that wait in q go. The answer is how many went.
pub fn keep_last(q: &mut [u8], m: usize) -> usize
    requires { m * 72 ≤ length q.old }
    ensures { Kept m result q.old q.new }
{
    if 1 < m {
        store::put_row(q, 0, store::get_row(q, m - 1));
        m - 1
    } else {
        0
    }
}

// How many rows the change would leave, with a queue of six rows (refusal 10), in a well formed list that it can be made in, which the
// entries asked. Nothing is written but the queue.
pub fn count_with(s: &[u8], q: &mut [u8], n: usize, e: Change) -> usize
    requires { Counts e n s.now × (432 ≤ length q.old) }
    ensures { result ≡ length (join (expand (all_pieces e (rows n s.now)))) }
{
    let mut left = e;
    let mut gone = 0;
    let mut m = 0;
    for i in 0..n {
        let row = store::get_row(s, i);
        m = push_row(q, m, left, row);
        left = left.after(row);
        let k = keep_last(q, m);
        gone += k;
        m -= k;
    }
    gone + m
}

// The same, with a queue of its own.
pub fn count(s: &[u8], n: usize, e: Change) -> usize
    requires { Counts e n s.now }
    ensures { result ≡ length (join (expand (all_pieces e (rows n s.now)))) }
{
    let mut q = [0u8; 432];
    count_with(s, &mut q, n, e)
}
