// The list put at a version in place. The statuses are dropped and the rows joined, which leaves no more of them; they are moved to the end of the
// room that the new list needs, and from there cut again, row by row. So no list on the way needs more rows than the one before or the one after.
// What these ask, the entries have asked before the first write: 15, the versions, and the rows that the new list needs (10).
ghost use Rattle.std.specs.Prelude.{◌≡◌, ◌-◌, ◌*◌, ◌≤◌, length, drop};
ghost use Rattle.span.specs.Span.{span_code, len_span};
ghost use Rattle.span.specs.Units.{units_of, expand, join};
ghost use Rattle.store.specs.Row.{rows};
ghost use Rattle.store.specs.Limits.{UNITS};
ghost use Rattle.rope.specs.Spans.{AllOk};
ghost use Rattle.tracker.specs.Rows.{pairs, held};
ghost use Rattle.tracker.specs.Looks.{Looks, Sees, seen};
ghost use Rattle.tracker.specs.Restate.{bare_span, bare_units, Fits, Grown, Refine};

use crate::seen::seen_piece;
use rope::stream::push;
use span::span::FugueSpan;
use span::status::Status;

#[tactic(auto, unfolding(crate::specs::Restate::bare_span, units::specs::Change::with_state))]
pub fn bare(row: FugueSpan) -> FugueSpan
    ensures { result ≡ bare_span row }
{
    FugueSpan {
        status: Status::default(),
        diff_status: None,
        ..row
    }
}

// The rows without their statuses, joined again: never more of them. The answer is their number.
pub fn bare_rows(s: &mut [u8], n: usize) -> usize
    requires { (n * 72 ≤ length s.old) × AllOk (rows n s.old) }
    ensures { (rows result s.new ≡ join (bare_units (expand (rows n s.old)))) × (result ≤ n) }
{
    let mut w = 0;
    for i in 0..n {
        let row = store::get_row(s, i);
        w = push(s, w, bare(row));
    }
    w
}

// The m rows go to the end of k rows.
pub fn raise(s: &mut [u8], m: usize, k: usize)
    requires { (m ≤ k) × (k * 72 ≤ length s.old) }
    ensures { drop (k - m) (rows k s.new) ≡ rows m s.old }
{
    if m < k {
        s.copy_within(0..m * 72, (k - m) * 72)
    }
}

// The span y goes after the first w rows: it joins the last of them, or is a row of its own. No row past these is touched. The answer is their number.
pub fn grow(s: &mut [u8], w: usize, y: FugueSpan) -> usize
    requires { Fits w (units_of y) s.old × (span_code y ≡ 0) }
    ensures { Grown w (units_of y) result s.old s.new }
{
    if 0 < w {
        let left = store::get_row(s, w - 1);
        if left.can_merge(y) {
            store::put_row(s, w - 1, left.joined(y));
            return w;
        }
    }
    store::put_row(s, w, y);
    w + 1
}

// The units of a row, seen, go after the first w rows. The answer is the number of these.
pub fn push_seen(
    s: &mut [u8],
    w: usize,
    row: FugueSpan,
    e: &[u8],
    h: usize,
    t: &[u8],
    a: &[u8],
    ka: usize,
    b: &[u8],
    kb: usize,
    both: bool,
) -> usize
    requires { Fits w (seen both (pairs ka a.now) (pairs kb b.now) (held h e.now t.now) (units_of row)) s.old × Looks h e.now t.now ka a.now × Looks h e.now t.now kb b.now × (span_code row ≡ 0) × (len_span row ≤ UNITS) }
    ensures { Grown w (seen both (pairs ka a.now) (pairs kb b.now) (held h e.now t.now) (units_of row)) result s.old s.new }
{
    let len = row.rle_len();
    let mut k = w;
    let mut c = 0;
    while c < len {
        let x = seen_piece(row, c, e, h, t, a, ka, b, kb, both);
        k = grow(s, k, x);
        c += x.rle_len();
    }
    k
}

// The bare rows from row `from` up to k are seen, and written from row 0 on.
pub fn refine(
    s: &mut [u8],
    from: usize,
    k: usize,
    e: &[u8],
    h: usize,
    t: &[u8],
    a: &[u8],
    ka: usize,
    b: &[u8],
    kb: usize,
    both: bool,
)
    requires { Refine both (pairs ka a.now) (pairs kb b.now) (held h e.now t.now) k 0 from (seen both (pairs ka a.now) (pairs kb b.now) (held h e.now t.now) (expand (drop from (rows k s.old)))) s.old × Looks h e.now t.now ka a.now × Looks h e.now t.now kb b.now }
    ensures { rows k s.new ≡ join (seen both (pairs ka a.now) (pairs kb b.now) (held h e.now t.now) (expand (drop from (rows k s.old)))) }
{
    let mut w = 0;
    for i in from..k {
        let row = store::get_row(s, i);
        w = push_seen(s, w, row, e, h, t, a, ka, b, kb, both);
    }
}

// The list at a version, in k rows: so many it needs. With `both` a unit has the version a as status and b as diff_status.
pub fn restate(
    s: &mut [u8],
    n: usize,
    k: usize,
    e: &[u8],
    h: usize,
    t: &[u8],
    a: &[u8],
    ka: usize,
    b: &[u8],
    kb: usize,
    both: bool,
)
    requires { Sees n s.old h e.now t.now ka a.now kb b.now × (k ≡ length (join (seen both (pairs ka a.now) (pairs kb b.now) (held h e.now t.now) (expand (rows n s.old))))) × (k * 72 ≤ length s.old) }
    ensures { rows k s.new ≡ join (seen both (pairs ka a.now) (pairs kb b.now) (held h e.now t.now) (expand (rows n s.old))) }
{
    let m = bare_rows(s, n);
    raise(s, m, k);
    refine(s, k - m, k, e, h, t, a, ka, b, kb, both)
}
