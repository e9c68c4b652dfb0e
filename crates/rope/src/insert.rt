// The insert of a span into a well formed list: first a plan, from what stands there, and then the plan is carried out.
ghost use Rattle.std.specs.Prelude.{◌≡◌, ◌+◌, ◌*◌, ◌≤◌, ◌<◌, length};
ghost use Rattle.span.specs.Units.{expand};
ghost use Rattle.store.specs.Row.{rows};
ghost use Rattle.units.specs.Place.{insert_units, with_origins};
ghost use Rattle.rope.specs.Spans.{bordered, Border, seek_in, border_units, AtBorder, Ready};
ghost use Rattle.rope.specs.Plans.{Cuts, cut_rows, planned, plan_rows, Can, Planned};

use crate::place::{right_from, scan_from};
use crate::seek::{Cursor, seek};
use span::ids::Id;
use span::span::FugueSpan;

// What an insert does to the rows: a row becomes that row and the span joined to its end; the span goes before a row; or it goes into a row,
// after so many of its units.
#[derive(Clone, Copy)]
pub enum Plan {
    Join(usize, FugueSpan),
    Own(usize, FugueSpan),
    Cut(usize, u32, FugueSpan),
}

impl Plan {
    // The number of rows after it, where it was n: known before anything is written (refusal 10).
    #[tactic(auto, unfolding(crate::specs::Plans::plan_rows))]
    pub fn rows(self, n: usize) -> usize
        requires { n ≤ 65536 }
        ensures { result ≡ plan_rows self n }
    {
        match self {
            Plan::Join(_, _) => n,
            Plan::Own(_, _) => n + 1,
            Plan::Cut(_, _, _) => n + 2,
        }
    }
}

// The span y goes before row r: it joins its left neighbour, or it is a row of its own. Nothing after it may join it.
pub fn plan_border(s: &[u8], n: usize, r: usize, y: FugueSpan) -> Plan
    requires { Border n r y s.now }
    ensures { Planned result n (bordered r y (rows n s.now)) s.now }
{
    if 0 < r {
        let left = store::get_row(s, r - 1);
        if left.can_merge(y) {
            return Plan::Join(r - 1, left.joined(y));
        }
    }
    Plan::Own(r, y)
}

// The span with other origins.
#[tactic(auto, unfolding(units::specs::Place::with_origins))]
pub fn with_origins(x: FugueSpan, left: Option<Id>, right: Option<Id>) -> FugueSpan
    ensures { result ≡ with_origins x left right }
{
    FugueSpan {
        origin_left: left,
        origin_right: right,
        ..x
    }
}

// The span x is inserted by a cursor that stands before row `at`, right after the unit `left`.
pub fn plan_scan(
    s: &[u8],
    n: usize,
    units: usize,
    at: usize,
    left: Option<Id>,
    x: FugueSpan,
) -> Plan
    requires { AtBorder n units at left x s.now }
    ensures { Planned result n (border_units at left x (rows n s.now)) s.now }
{
    let list = store::list::rows(s, n);
    let right = right_from(list, at);
    let r = scan_from(s, n, units, at, left, right, x.id.peer);
    plan_border(s, n, at + r, with_origins(x, left, right))
}

// The insert of a span at a visible position of a well formed list.
pub fn plan_insert(s: &[u8], n: usize, units: usize, at: u32, x: FugueSpan) -> Plan
    requires { Ready n units at x s.now }
    ensures { Planned result n (insert_units at x (expand (rows n s.now))) s.now }
{
    if at == 0 {
        plan_scan(s, n, units, 0, None, x)
    } else {
        let c = seek(store::list::rows(s, n), at);
        plan_after(s, n, units, at, c, x)
    }
}

// The same, where the cursor is known and is not the start.
pub fn plan_after(s: &[u8], n: usize, units: usize, at: u32, c: Cursor, x: FugueSpan) -> Plan
    requires { Ready n units at x s.now × (0 < at) × (c ≡ seek_in (rows n s.now) at 0) }
    ensures { Planned result n (insert_units at x (expand (rows n s.now))) s.now }
{
    let row = store::get_row(s, c.row);
    let left = row.left_at(c.offset);
    if c.offset == row.rle_len() {
        plan_scan(s, n, units, c.row + 1, left, x)
    } else {
        let right = row.left_at(c.offset + 1);
        Plan::Cut(c.row, c.offset, with_origins(x, left, right))
    }
}

// The span y goes into row r, after the first `off` of its units: two rows more.
pub fn put_inside(s: &mut [u8], n: usize, r: usize, off: u32, y: FugueSpan)
    requires { (n * 72 + 144 ≤ length s.old) × (n ≤ 65536) × Cuts n r off s.old }
    ensures { rows (n + 2) s.new ≡ cut_rows r off y (rows n s.old) }
{
    let row = store::get_row(s, r);
    let a = row.piece(0, off);
    let b = row.piece(off, row.rle_len());
    store::put_row(s, r, a);
    store::insert_row(s, n, r + 1, y);
    store::insert_row(s, n + 1, r + 2, b);
}

// A plan carried out, where there is room for the rows after it.
pub fn perform(s: &mut [u8], n: usize, p: Plan)
    requires { (n * 72 ≤ length s.old) × (n ≤ 65536) × Can p n s.old × (plan_rows p n * 72 ≤ length s.old) }
    ensures { rows (plan_rows p n) s.new ≡ planned p (rows n s.old) }
{
    match p {
        Plan::Join(r, both) => store::put_row(s, r, both),
        Plan::Own(r, y) => store::insert_row(s, n, r, y),
        Plan::Cut(r, off, y) => put_inside(s, n, r, off, y),
    }
}
