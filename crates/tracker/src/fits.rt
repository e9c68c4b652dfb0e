// Whether an insert fits the room for rows, asked before anything is written. It adds two rows inside a row, none where it joins the unit on its left, and
// else one; so the list at its context is looked at only where the room is that tight. That list is not in the rows: they stand at another version.
// All functions here are inner ones: the entries have asked 15 and the refusals before 10, so each asks for a well formed list and log, and a place in them.
ghost use Rattle.std.specs.Prelude.{◌≡◌, true, false, not, [], ◌*◌, ◌<◌, ◌≤◌, length, drop, nat_le};
ghost use Rattle.span.specs.Ids.{room_of};
ghost use Rattle.span.specs.Units.{expand, join};
ghost use Rattle.store.specs.Row.{rows};
ghost use Rattle.units.specs.Place.{shown, verdict, pr_pos, insert_units};
ghost use Rattle.rope.specs.Spans.{AllOk, Held};
ghost use Rattle.history.specs.Version.{in_version};
ghost use Rattle.tracker.specs.Rows.{pairs, held};
ghost use Rattle.tracker.specs.Looks.{Looks, Sees};
ghost use Rattle.tracker.specs.Fits.{meets, first_in, stays_at, joins_at, list_at, Cut, left_unit, behind_of, Sought, edge, joins_left, Enters};

use crate::look::status_run;
use crate::seen::next_piece;
use rope::check::units;
use rope::find::has;
use rope::insert::with_origins;
use rope::place::{judge, parent_pos};
use span::ids::Id;
use span::span::FugueSpan;
use units::place::Verdict;

// A cursor: so many units of a piece are before it; row and from are the place behind the piece.
#[derive(Clone, Copy)]
pub struct Left {
    pub piece: FugueSpan,
    pub skip: u32,
    pub row: usize,
    pub from: u32,
}

// Whether a version does not have an id.
pub fn future_at(e: &[u8], h: usize, t: &[u8], v: &[u8], m: usize, id: Id) -> bool
    requires { Looks h e.now t.now m v.now × (room_of id 1 ≡ true) }
    ensures { result ≡ not (in_version (pairs m v.now) id) }
{
    status_run(e, h, t, v, m, id, 1).status.future
}

// Origin right for a cursor before row `at`: the first unit from there on that the version has.
pub fn right_at(
    s: &[u8],
    n: usize,
    at: usize,
    e: &[u8],
    h: usize,
    t: &[u8],
    v: &[u8],
    m: usize,
) -> Option<Id>
    requires { Sees n s.now h e.now t.now m v.now m v.now × (at ≤ n) }
    ensures { result ≡ first_in (pairs m v.now) (drop at (rows n s.now)) }
{
    for i in at..n {
        let id = store::get_row(s, i).id;
        if !future_at(e, h, t, v, m, id) {
            return Some(id);
        }
    }
    None
}

// What a scanned row does: i rows of the part were scanned before it.
pub fn weigh(
    part: &[u8],
    i: usize,
    all: &[u8],
    n: usize,
    count: usize,
    row: FugueSpan,
    x: Option<Id>,
    o: Option<Id>,
    p: usize,
    q: u64,
) -> Verdict
    requires { Held n count all.now × (i * 72 ≤ length part.now) × AllOk (rows i part.now) }
    ensures { result ≡ verdict (expand (rows n all.now)) x o p q (expand (rows i part.now)) row }
{
    if row.origin_left == x {
        judge(all, n, count, row, o, p, q)
    } else if has(store::list::rows(part, i), row.origin_left) {
        Verdict::Keep
    } else {
        Verdict::Stop
    }
}

// Whether the scan of k rows leaves the place at their start.
pub fn stays(
    part: &[u8],
    k: usize,
    all: &[u8],
    n: usize,
    count: usize,
    e: &[u8],
    h: usize,
    t: &[u8],
    v: &[u8],
    m: usize,
    x: Option<Id>,
    o: Option<Id>,
    p: usize,
    q: u64,
) -> bool
    requires { (k * 72 ≤ length part.now) × AllOk (rows k part.now) × Held n count all.now × Looks h e.now t.now m v.now }
    ensures { result ≡ stays_at (pairs m v.now) (verdict (expand (rows n all.now)) x o p q) [] false (rows k part.now) }
{
    let mut holding = false;
    for i in 0..k {
        let row = store::get_row(part, i);
        if !future_at(e, h, t, v, m, row.id) {
            return true;
        }
        let said = weigh(part, i, all, n, count, row, x, o, p, q);
        if said.is_stop() {
            return true;
        }
        holding = said.after(holding);
        if !holding {
            return false;
        }
    }
    true
}

// The same from row `at` of a list on.
pub fn stays_from(
    s: &[u8],
    n: usize,
    at: usize,
    e: &[u8],
    h: usize,
    t: &[u8],
    v: &[u8],
    m: usize,
    x: Option<Id>,
    o: Option<Id>,
    q: u64,
) -> bool
    requires { Sees n s.now h e.now t.now m v.now m v.now × (at ≤ n) }
    ensures { result ≡ stays_at (pairs m v.now) (verdict (expand (rows n s.now)) x o (pr_pos (expand (rows n s.now)) x o) q) [] false (drop at (rows n s.now)) }
{
    let list = store::list::rows(s, n);
    let count = units(list);
    let p = parent_pos(s, n, count, x, o);
    stays(
        &s[at * 72..],
        n - at,
        s,
        n,
        count,
        e,
        h,
        t,
        v,
        m,
        x,
        o,
        p,
        q,
    )
}

// Whether a span entered right after the unit u, before row `at`, joins it.
#[tactic(auto, unfolding(crate::specs::Fits::joins_at))]
pub fn joins_at(
    s: &[u8],
    n: usize,
    at: usize,
    e: &[u8],
    h: usize,
    t: &[u8],
    v: &[u8],
    m: usize,
    u: FugueSpan,
    x: FugueSpan,
) -> bool
    requires { Sees n s.now h e.now t.now m v.now m v.now × (at ≤ n) }
    ensures { result ≡ joins_at (pairs m v.now) (rows n s.now) at u x }
{
    let right = right_at(s, n, at, e, h, t, v, m);
    u.can_merge(with_origins(x, Some(u.id), right))
        && stays_from(s, n, at, e, h, t, v, m, Some(u.id), right, x.id.peer)
}

// The cursor of a visible position that is not the start.
pub fn find_left(
    s: &[u8],
    n: usize,
    e: &[u8],
    h: usize,
    t: &[u8],
    v: &[u8],
    m: usize,
    at: u32,
) -> Left
    requires { Sees n s.now h e.now t.now m v.now m v.now × (0 < at) × (at ≤ shown (list_at (pairs m v.now) (held h e.now t.now) n s.now)) }
    ensures { Sought (pairs m v.now) (held h e.now t.now) n s.now at result }
{
    let mut i = 0;
    let mut from = 0;
    let mut left = at;
    loop {
        let step = next_piece(s, n, i, from, e, h, t, v, m, v, m, false);
        let len = step.piece.activated_len();
        if left <= len {
            return Left {
                piece: step.piece,
                skip: left,
                row: step.row,
                from: step.from,
            };
        }
        left -= len;
        i = step.row;
        from = step.from;
    }
}

// The unit before a cursor.
#[tactic(auto, using(span::proofs::Unique::in_range_lem))]
pub fn left_unit(n: usize, s: &[u8], f: Left) -> FugueSpan
    requires { Cut n s.now f }
    ensures { result ≡ left_unit f }
{
    f.piece.piece(f.skip - 1, f.skip)
}

// Whether a join crosses the cursor.
pub fn inside(s: &[u8], n: usize, e: &[u8], h: usize, t: &[u8], v: &[u8], m: usize, f: Left) -> bool
    requires { Sees n s.now h e.now t.now m v.now m v.now × Cut n s.now f }
    ensures { result ≡ meets (left_unit f) (behind_of (pairs m v.now) (held h e.now t.now) n s.now f) }
{
    if f.skip < f.piece.rle_len() {
        return true;
    }
    if n <= f.row {
        return false;
    }
    let next = next_piece(s, n, f.row, f.from, e, h, t, v, m, v, m, false);
    left_unit(n, s, f).can_merge(next.piece)
}

// Whether a cursor at the end of a piece is before a row, or behind all of them.
pub fn at_edge(n: usize, f: Left) -> bool
    ensures { result ≡ edge n f }
{
    f.from == 0 || n <= f.row
}

// Whether the new span joins the unit before the cursor: then that is the last of its row, since the new ids are its next.
#[tactic(auto, unfolding(crate::specs::Fits::joins_left))]
pub fn joins_left(
    s: &[u8],
    n: usize,
    e: &[u8],
    h: usize,
    t: &[u8],
    v: &[u8],
    m: usize,
    f: Left,
    x: FugueSpan,
) -> bool
    requires { Sees n s.now h e.now t.now m v.now m v.now × Cut n s.now f }
    ensures { result ≡ joins_left (pairs m v.now) n s.now f x }
{
    f.skip == f.piece.rle_len()
        && at_edge(n, f)
        && joins_at(s, n, f.row, e, h, t, v, m, left_unit(n, s, f), x)
}

// Whether the insert of x at a visible position of the version v leaves no more than `most` rows, where its list has k.
pub fn insert_fits(
    s: &[u8],
    n: usize,
    e: &[u8],
    h: usize,
    t: &[u8],
    v: &[u8],
    m: usize,
    at: u32,
    x: FugueSpan,
    k: usize,
    most: usize,
) -> bool
    requires { Sees n s.now h e.now t.now m v.now m v.now × Enters (pairs m v.now) (held h e.now t.now) n s.now at x k most }
    ensures { result ≡ nat_le (length (join (insert_units at x (list_at (pairs m v.now) (held h e.now t.now) n s.now)))) most }
{
    let spare = most - k;
    if 2 <= spare {
        return true;
    }
    if at == 0 {
        return 0 < spare;
    }
    let f = find_left(s, n, e, h, t, v, m, at);
    if 0 < spare {
        !inside(s, n, e, h, t, v, m, f)
    } else {
        joins_left(s, n, e, h, t, v, m, f, x)
    }
}
