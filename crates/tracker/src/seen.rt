// The list as a version shows it, read piece by piece without a change to the rows: a row is cut where the status of its units changes.
// With `both` a unit has the version a as status and b as diff_status.
ghost use Rattle.std.specs.Prelude.{◌≡◌, false, ◌+◌, ◌<◌, ◌≤◌, length};
ghost use Rattle.span.specs.Span.{span_code, len_span, part_span};
ghost use Rattle.span.specs.Units.{expand, join};
ghost use Rattle.store.specs.Row.{rows};
ghost use Rattle.store.specs.Limits.{UNITS};
ghost use Rattle.units.specs.Place.{shown};
ghost use Rattle.units.specs.Change.{with_state, delete_units};
ghost use Rattle.rope.specs.Pieces.{CanDelete};
ghost use Rattle.history.specs.Checkout.{ranges_of};
ghost use Rattle.tracker.specs.Rows.{pairs, held};
ghost use Rattle.tracker.specs.Looks.{Looks, Sees, Piece, seen};
ghost use Rattle.tracker.specs.Takes.{ids_taken};
ghost use Rattle.tracker.specs.Ahead.{Place, Next};

use crate::look::status_run;
use crate::range::Taken;
use rope::apply::{keep_last, push_row};
use rope::change::{Change, Delete};
use rope::seek::active_of;
use rope::stream::push;
use span::span::FugueSpan;
use span::status::Status;

// A piece, and the place behind it: a row, and a unit in it.
#[derive(Clone, Copy)]
pub struct Step {
    pub piece: FugueSpan,
    pub row: usize,
    pub from: u32,
}

// len units of a row from `from` on, with these statuses. An inner function: the callers know that the row has these units.
#[tactic(auto, using(span::proofs::Unique::len_small, span::proofs::Unique::in_range_lem), unfolding(units::specs::Change::with_state))]
pub fn part_with(
    row: FugueSpan,
    from: u32,
    len: u32,
    status: Status,
    diff: Option<Status>,
) -> FugueSpan
    requires { (span_code row ≡ 0) × (0 < len) × (from + len ≤ len_span row) }
    ensures { result ≡ with_state (part_span row from (from + len)) status diff (part_span row from (from + len)).real_id }
{
    FugueSpan {
        status,
        diff_status: diff,
        ..row.piece(from, from + len)
    }
}

// The units of a row from `from` on that have one status, as a span with it.
pub fn seen_piece(
    row: FugueSpan,
    from: u32,
    e: &[u8],
    h: usize,
    t: &[u8],
    a: &[u8],
    ka: usize,
    b: &[u8],
    kb: usize,
    both: bool,
) -> FugueSpan
    requires { Looks h e.now t.now ka a.now × Looks h e.now t.now kb b.now × (span_code row ≡ 0) × (from < len_span row) × (len_span row ≤ UNITS) }
    ensures { Piece both (pairs ka a.now) (pairs kb b.now) (held h e.now t.now) row from result }
{
    let id = row.id.inc(from);
    let first = status_run(e, h, t, a, ka, id, row.rle_len() - from);
    if both {
        let second = status_run(e, h, t, b, kb, id, first.len);
        part_with(row, from, second.len, first.status, Some(second.status))
    } else {
        part_with(row, from, first.len, first.status, None)
    }
}

// The next piece of the list from a place on.
pub fn next_piece(
    s: &[u8],
    n: usize,
    i: usize,
    from: u32,
    e: &[u8],
    h: usize,
    t: &[u8],
    a: &[u8],
    ka: usize,
    b: &[u8],
    kb: usize,
    both: bool,
) -> Step
    requires { Sees n s.now h e.now t.now ka a.now kb b.now × Place n s.now i from × (i < n) }
    ensures { Next both (pairs ka a.now) (pairs kb b.now) (held h e.now t.now) n s.now i from result }
{
    let row = store::get_row(s, i);
    let piece = seen_piece(row, from, e, h, t, a, ka, b, kb, both);
    let to = from + piece.rle_len();
    if to < row.rle_len() {
        Step {
            piece,
            row: i,
            from: to,
        }
    } else {
        Step {
            piece,
            row: i + 1,
            from: 0,
        }
    }
}

// How many units are visible.
pub fn shown_seen(
    s: &[u8],
    n: usize,
    e: &[u8],
    h: usize,
    t: &[u8],
    a: &[u8],
    ka: usize,
    b: &[u8],
    kb: usize,
    both: bool,
) -> usize
    requires { Sees n s.now h e.now t.now ka a.now kb b.now }
    ensures { result ≡ shown (seen both (pairs ka a.now) (pairs kb b.now) (held h e.now t.now) (expand (rows n s.now))) }
{
    let mut i = 0;
    let mut from = 0;
    let mut sum = 0;
    while i < n {
        let step = next_piece(s, n, i, from, e, h, t, a, ka, b, kb, both);
        sum += active_of(step.piece);
        i = step.row;
        from = step.from;
    }
    sum
}

// How many rows the joined list has, with a queue of two rows.
pub fn count_seen_with(
    q: &mut [u8],
    s: &[u8],
    n: usize,
    e: &[u8],
    h: usize,
    t: &[u8],
    a: &[u8],
    ka: usize,
    b: &[u8],
    kb: usize,
    both: bool,
) -> usize
    requires { Sees n s.now h e.now t.now ka a.now kb b.now × (144 ≤ length q.old) }
    ensures { result ≡ length (join (seen both (pairs ka a.now) (pairs kb b.now) (held h e.now t.now) (expand (rows n s.now)))) }
{
    let mut i = 0;
    let mut from = 0;
    let mut gone = 0;
    let mut m = 0;
    while i < n {
        let step = next_piece(s, n, i, from, e, h, t, a, ka, b, kb, both);
        m = push(q, m, step.piece);
        let k = keep_last(q, m);
        gone += k;
        m -= k;
        i = step.row;
        from = step.from;
    }
    gone + m
}

// How many rows the joined list has.
pub fn count_seen(
    s: &[u8],
    n: usize,
    e: &[u8],
    h: usize,
    t: &[u8],
    a: &[u8],
    ka: usize,
    b: &[u8],
    kb: usize,
    both: bool,
) -> usize
    requires { Sees n s.now h e.now t.now ka a.now kb b.now }
    ensures { result ≡ length (join (seen both (pairs ka a.now) (pairs kb b.now) (held h e.now t.now) (expand (rows n s.now)))) }
{
    let mut q = [0u8; 144];
    count_seen_with(&mut q, s, n, e, h, t, a, ka, b, kb, both)
}

// How many rows the joined list would have after a delete at the version a, with a queue of four rows.
pub fn count_deleted_with(
    q: &mut [u8],
    s: &[u8],
    n: usize,
    e: &[u8],
    h: usize,
    t: &[u8],
    a: &[u8],
    ka: usize,
    d: Delete,
) -> usize
    requires { Sees n s.now h e.now t.now ka a.now ka a.now × CanDelete d × (288 ≤ length q.old) }
    ensures { result ≡ length (join (delete_units d.at d.len d.start (seen false (pairs ka a.now) (pairs ka a.now) (held h e.now t.now) (expand (rows n s.now))))) }
{
    let mut i = 0;
    let mut from = 0;
    let mut left = d;
    let mut gone = 0;
    let mut m = 0;
    while i < n {
        let step = next_piece(s, n, i, from, e, h, t, a, ka, a, ka, false);
        m = push_row(q, m, Change::Delete(left), step.piece);
        left = left.after(step.piece);
        let k = keep_last(q, m);
        gone += k;
        m -= k;
        i = step.row;
        from = step.from;
    }
    gone + m
}

// How many rows the joined list would have after a delete at the version a.
pub fn count_deleted(
    s: &[u8],
    n: usize,
    e: &[u8],
    h: usize,
    t: &[u8],
    a: &[u8],
    ka: usize,
    d: Delete,
) -> usize
    requires { Sees n s.now h e.now t.now ka a.now ka a.now × CanDelete d }
    ensures { result ≡ length (join (delete_units d.at d.len d.start (seen false (pairs ka a.now) (pairs ka a.now) (held h e.now t.now) (expand (rows n s.now))))) }
{
    let mut q = [0u8; 288];
    count_deleted_with(&mut q, s, n, e, h, t, a, ka, d)
}

// How many target ranges a delete at the version a would take.
pub fn count_targets(
    s: &[u8],
    n: usize,
    e: &[u8],
    h: usize,
    t: &[u8],
    a: &[u8],
    ka: usize,
    d: Delete,
) -> usize
    requires { Sees n s.now h e.now t.now ka a.now ka a.now × CanDelete d }
    ensures { result ≡ length (ranges_of (ids_taken d (seen false (pairs ka a.now) (pairs ka a.now) (held h e.now t.now) (expand (rows n s.now))))) }
{
    let mut i = 0;
    let mut from = 0;
    let mut left = d;
    let mut ranges = Taken {
        before: 0,
        last: None,
    };
    while i < n {
        let step = next_piece(s, n, i, from, e, h, t, a, ka, a, ka, false);
        let part = left.cut(step.piece);
        ranges = ranges.on_part(step.piece, part);
        left = left.after(step.piece);
        i = step.row;
        from = step.from;
    }
    ranges.many()
}
