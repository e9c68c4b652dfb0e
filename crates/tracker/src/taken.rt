// Refusal 15 of a history, the targets: those of a delete are as many as its length, in ranges as wide as can be, and their ids stand in the list in
// their order. One pass over the rows for each edit.
ghost use Rattle.std.specs.Prelude.{◌≡◌, true, ◌+◌, ◌*◌, ◌<◌, ◌≤◌, length, drop};
ghost use Rattle.span.specs.Ids.{room_of};
ghost use Rattle.span.specs.Span.{span_code, len_span};
ghost use Rattle.span.specs.Units.{expand};
ghost use Rattle.store.specs.Row.{rows};
ghost use Rattle.store.specs.Limits.{ROWS};
ghost use Rattle.units.specs.Lists.{every};
ghost use Rattle.rope.specs.Spans.{AllOk, Stored};
ghost use Rattle.history.specs.Valid.{total, act_length, targets_fit};
ghost use Rattle.tracker.specs.Rows.{to_act, to_range, ranges, took_in, edit_in, held, used};
ghost use Rattle.tracker.specs.Follow.{ids_in, ids_of, in_order, runs_into, well_ranges, took_fits, Walks};

use crate::range;
use crate::row::{Does, Target, get_head, get_target, get_took};
use rope::find::offset_of;
use span::span::FugueSpan;

// How many ids of a range are found, and how many units of a row are passed.
#[derive(Clone, Copy)]
pub struct Walked {
    pub found: u32,
    pub passed: u32,
}

// A step along a row and a range, from unit k and id o on.
fn walk(row: FugueSpan, k: u32, r: Target, o: u32) -> Walked
    requires { (span_code row ≡ 0) × (k ≤ len_span row) × (o < r.len) × (room_of r.id r.len ≡ true) }
    ensures { Walks row k (to_range r) o result.found result.passed }
{
    let x = r.id.inc(o);
    let n = row.rle_len();
    match offset_of(row, Some(x)) {
        Some(d) if k <= d => {
            if r.len - o <= n - d {
                Walked {
                    found: r.len,
                    passed: d + (r.len - o),
                }
            } else {
                Walked {
                    found: o + (n - d),
                    passed: n,
                }
            }
        }
        _ => Walked {
            found: o,
            passed: n,
        },
    }
}

// Whether the ids of m ranges stand in the list in their order.
fn follows(s: &[u8], n: usize, t: &[u8], m: usize) -> bool
    requires { (n * 72 ≤ length s.now) × AllOk (rows n s.now) × (m * 16 ≤ length t.now) × (well_ranges (ranges m t.now) ≡ true) }
    ensures { result ≡ in_order (ids_in (ranges m t.now)) (ids_of (expand (rows n s.now))) }
{
    let mut i = 0;
    let mut k = 0;
    let mut j = 0;
    let mut o = 0;
    while j < m {
        if n <= i {
            return false;
        }
        let r = get_target(t, j);
        let w = walk(store::get_row(s, i), k, r, o);
        if w.found < r.len {
            i += 1;
            k = 0;
            o = w.found;
        } else {
            j += 1;
            k = w.passed;
            o = 0;
        }
    }
    true
}

// Whether a range goes on in the next one.
#[tactic(auto, using(crate::proofs::FollowLaws::next_range, crate::proofs::FollowLaws::no_range))]
fn runs_into(t: &[u8], m: usize, j: usize, r: Target) -> bool
    requires { (m * 16 ≤ length t.now) × (j < m) × (room_of r.id r.len ≡ true) }
    ensures { result ≡ runs_into (to_range r) (drop (j + 1) (ranges m t.now)) }
{
    j + 1 < m && range::follows(r, get_target(t, j + 1).id)
}

// Whether m ranges are not empty, have room, and do not go on in the next one.
fn well_ranges(t: &[u8], m: usize) -> bool
    requires { m * 16 ≤ length t.now }
    ensures { result ≡ well_ranges (ranges m t.now) }
{
    for j in 0..m {
        let r = get_target(t, j);
        if r.len == 0 || !r.id.has_room(r.len) || runs_into(t, m, j, r) {
            return false;
        }
    }
    true
}

// How many ids m ranges have.
fn sum_ranges(t: &[u8], m: usize) -> u64
    requires { (m * 16 ≤ length t.now) × (m ≤ 65536) }
    ensures { result ≡ total (ranges m t.now) }
{
    let mut sum = 0;
    for j in 0..m {
        sum += u64::from(get_target(t, j).len);
    }
    sum
}

// Whether what an edit took fits the list.
#[tactic(auto, using(crate::proofs::TakenLaws::stored_ok), unfolding(crate::specs::Follow::took_fits))]
fn took_fits(s: &[u8], n: usize, t: &[u8], m: usize, act: Does) -> bool
    requires { Stored n s.now × (m * 16 ≤ length t.now) × (m ≤ 65536) }
    ensures { result ≡ took_fits (expand (rows n s.now)) (to_act act) (ranges m t.now) }
{
    sum_ranges(t, m) == length_of(act) && well_ranges(t, m) && follows(s, n, t, m)
}

// How many units a delete takes; an insert takes none.
fn length_of(act: Does) -> u64
    ensures { result ≡ act_length (to_act act) }
{
    match act {
        Does::Insert(_, _) => 0,
        Does::Delete(n, _, _) => u64::from(n),
    }
}

// The same of m ranges from range `at` on.
fn took_fits_at(s: &[u8], n: usize, t: &[u8], at: usize, m: usize, act: Does) -> bool
    requires { Stored n s.now × ((at + m) * 16 ≤ length t.now) × (m ≤ 65536) }
    ensures { result ≡ took_fits (expand (rows n s.now)) (to_act act) (ranges m (drop (at * 16) t.now)) }
{
    took_fits(s, n, &t[at * 16..], m, act)
}

// What the edit in row i does, and how many target ranges it has.
pub(crate) fn act_at(e: &[u8], i: usize) -> Does
    requires { i * 256 + 256 ≤ length e.now }
    ensures { to_act result ≡ (edit_in (drop (i * 256) e.now)).act }
{
    get_head(&e[i * 256..]).act
}

pub(crate) fn took_at(e: &[u8], i: usize) -> u32
    requires { i * 256 + 256 ≤ length e.now }
    ensures { result ≡ took_in (drop (i * 256) e.now) }
{
    get_took(&e[i * 256..])
}

// Whether every edit's targets fit the list. That the ranges are so many is what `check` asks first.
pub fn targets_fit(s: &[u8], n: usize, e: &[u8], h: usize, t: &[u8]) -> bool
    requires { Stored n s.now × (h * 256 ≤ length e.now) × (used h e.now * 16 ≤ length t.now) × (used h e.now ≤ ROWS) }
    ensures { result ≡ every (targets_fit (expand (rows n s.now))) (held h e.now t.now) }
{
    let mut at = 0;
    for i in 0..h {
        let m = took_at(e, i) as usize;
        if !took_fits_at(s, n, t, at, m, act_at(e, i)) {
            return false;
        }
        at += m;
    }
    true
}
