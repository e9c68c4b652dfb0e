// Placement (000 `insert`): the scan of the rows from the cursor on, and what it asks of the whole list.
ghost use Rattle.std.specs.Prelude.{◌≡◌, false, [], ◌*◌, ◌≤◌, ◌<◌, length, drop, if◌then◌else◌};
ghost use Rattle.span.specs.Span.{len_span, span_code};
ghost use Rattle.span.specs.Units.{expand};
ghost use Rattle.store.specs.Row.{rows};
ghost use Rattle.store.specs.Listed.{spans};
ghost use Rattle.units.specs.Place.{first_past, pr_pos, sibling, verdict};
ghost use Rattle.rope.specs.Spans.{right_in, run_s, AllOk, Held, place_s};

use crate::find::{covers, offset_of};
use span::ids::Id;
use span::span::FugueSpan;
use store::list::{Row, span_of};
use units::place::{Verdict, by_pos};

// What a span tells of a parent right: it is this unit of it, it is a unit with another origin left, or no unit of it.
#[derive(Clone, Copy)]
pub enum Right {
    Here(usize),
    Other,
    Absent,
}

// What one row tells of the parent right o of a unit whose origin left is x. The row must be well formed: else its ids and its length say nothing.
pub fn right_in(row: FugueSpan, x: Option<Id>, o: Option<Id>) -> Right
    requires { span_code row ≡ 0 }
    ensures { result ≡ right_in row x o }
{
    let Some(k) = offset_of(row, o) else {
        return Right::Absent;
    };
    if row.left_at(k) == x {
        Right::Here(k as usize)
    } else {
        Right::Other
    }
}

pub fn len_of(row: FugueSpan) -> usize
    ensures { (result ≡ len_span row) × (result < 4294967296) }
{
    row.rle_len() as usize
}

// The position of the parent right of a unit with origins x and o, among the units of all rows: their number if there is none.
pub fn parent_pos(all: &[u8], n: usize, units: usize, x: Option<Id>, o: Option<Id>) -> usize
    requires { Held n units all.now }
    ensures { result ≡ pr_pos (expand (rows n all.now)) x o }
{
    let mut base = 0;
    for i in 0..n {
        let row = store::get_row(all, i);
        match right_in(row, x, o) {
            Right::Here(k) => return base + k,
            Right::Other => return units,
            Right::Absent => {}
        }
        base += len_of(row);
    }
    units
}

// What a scanned span with our origin left does: o is our origin right, m the position of our parent right, q our peer.
pub fn judge(
    all: &[u8],
    n: usize,
    units: usize,
    row: FugueSpan,
    o: Option<Id>,
    m: usize,
    q: u64,
) -> Verdict
    requires { Held n units all.now }
    ensures { result ≡ sibling (expand (rows n all.now)) o m q row }
{
    if row.origin_right == o {
        return if q < row.id.peer {
            Verdict::Stop
        } else {
            Verdict::Clear
        };
    }
    let p = parent_pos(all, n, units, row.origin_left, row.origin_right);
    by_pos(p, m, q, row.id.peer)
}

pub fn moved(holding: bool, place: usize, next: usize) -> usize
    ensures { result ≡ (if holding then place else next) }
{
    if holding { place } else { next }
}

// The placement scan. part holds the k rows from the cursor on; the answer is how many of them go before the new span.
// x and o are its origins, m is the position of its parent right among all units, q its peer.
pub fn scan(
    part: &[u8],
    k: usize,
    all: &[u8],
    n: usize,
    units: usize,
    x: Option<Id>,
    o: Option<Id>,
    m: usize,
    q: u64,
) -> usize
    requires { (k * 72 ≤ length part.now) × AllOk (rows k part.now) × Held n units all.now }
    ensures { result ≡ run_s (verdict (expand (rows n all.now)) x o m q) [] false 0 0 (rows k part.now) }
{
    let mut holding = false;
    let mut place = 0;
    let mut i = 0;
    'scan: while i < k {
        let row = store::get_row(part, i);
        if !row.status.future {
            break 'scan;
        }
        let left = row.origin_left;
        if left == x {
            let v = judge(all, n, units, row, o, m, q);
            if v.is_stop() {
                break 'scan;
            }
            holding = v.after(holding);
            place = moved(holding, place, i + 1);
            i += 1;
            continue 'scan;
        }
        let mut j = 0;
        'scanned: loop {
            if j == i {
                break 'scan;
            }
            if covers(store::get_row(part, j), left) {
                break 'scanned;
            }
            j += 1;
        }
        place = moved(holding, place, i + 1);
        i += 1;
    }
    place
}

// The first unit of some rows that is not future.
pub fn first_past(rows: &[Row]) -> Option<Id>
    requires { AllOk (spans rows.now) }
    ensures { result ≡ first_past (expand (spans rows.now)) }
{
    for row in rows {
        let row = span_of(row);
        if !row.status.future {
            return Some(row.id);
        }
    }
    None
}

// Origin right for a cursor before row `at`: the first unit from there on that is not future.
pub fn right_from(rows: &[Row], at: usize) -> Option<Id>
    requires { AllOk (spans rows.now) × (at ≤ length rows.now) }
    ensures { result ≡ first_past (expand (drop at (spans rows.now))) }
{
    first_past(&rows[at..])
}

// The scan from a cursor before row `at`: the rows from the cursor on are handed to it as a part.
pub fn scan_from(
    s: &[u8],
    n: usize,
    units: usize,
    at: usize,
    x: Option<Id>,
    o: Option<Id>,
    q: u64,
) -> usize
    requires { Held n units s.now × (at ≤ n) }
    ensures { result ≡ place_s (rows n s.now) at x o q }
{
    let m = parent_pos(s, n, units, x, o);
    scan(&s[at * 72..], n - at, s, n, units, x, o, m, q)
}
