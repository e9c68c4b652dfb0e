// What a version shows of an id: its status, and how many ids from it on have the same.
//
// An id's status is decided by the version's count of its peer and by the target ranges of the edits in the version. Each of these answers alike up to
// some unit: the reach is cut there. The rows are the entries' to check, and a unit's counter is below 2^31, so no sum here wraps.
ghost use Rattle.std.specs.Prelude.{◌≡◌, true, not, ◌&&◌, ◌||◌, ℕ, ◌+◌, ◌*◌, ◌≤◌, ◌<◌, min, length, drop, nat_lt, ◌==◌};
ghost use Rattle.span.specs.Ids.{room_of};
ghost use Rattle.history.specs.Version.{in_version};
ghost use Rattle.history.specs.Checkout.{in_range, in_ranges};
ghost use Rattle.tracker.specs.Rows.{pairs, held, ranges, to_range, edit_in, took_in};
ghost use Rattle.tracker.specs.Looks.{Looks, Reaches};
ghost use Rattle.tracker.specs.Reach.{unit_id, in_counters, edit_takes, Same, Takes};

use crate::row::{Target, get_target};
use crate::version::{below, count_of};
use span::ids::{Id, UNKNOWN_PEER};
use span::status::{Status, counter_of};
use words::bytes_at;

// A status, and how many units have it.
#[derive(Clone, Copy)]
pub struct Reach {
    pub status: Status,
    pub len: u32,
}

// What a test says, and of how many units.
#[derive(Clone, Copy)]
pub struct Found {
    pub hit: bool,
    pub len: u32,
}

// How many deletes took a unit, and of how many units that holds.
#[derive(Clone, Copy)]
pub struct Taken {
    pub times: u32,
    pub len: u32,
}

// Whether a number is below n, from k on.
fn below_reach(k: u32, n: u32, most: u32) -> Found
    requires { 0 < most }
    ensures { Same (λ (j : ℕ). nat_lt (k + j) n) most result }
{
    if k < n {
        Found {
            hit: true,
            len: most.min(n - k),
        }
    } else {
        Found {
            hit: false,
            len: most,
        }
    }
}

// Whether a counter is one of n from `start` on, from c on.
fn counters_reach(c: u32, start: i32, n: u32, most: u32) -> Found
    requires { (0 < most) × (c < 2147483648) }
    ensures { Same (λ (j : ℕ). in_counters start n (c + j)) most result }
{
    let Some(first) = counter_of(start) else {
        // Those below zero are no unit's, but count.
        return below_reach(c + start.unsigned_abs(), n, most);
    };
    if c < first {
        Found {
            hit: false,
            len: most.min(first - c),
        }
    } else {
        below_reach(c - first, n, most)
    }
}

// Whether a unit is in a range.
fn range_reach(peer: u64, c: u32, x: Target, most: u32) -> Found
    requires { (0 < most) × (c < 2147483648) }
    ensures { Same (λ (j : ℕ). in_range (unit_id peer (c + j)) (to_range x)) most result }
{
    if peer == x.id.peer {
        counters_reach(c, x.id.counter, x.len, most)
    } else {
        Found {
            hit: false,
            len: most,
        }
    }
}

// Whether a unit is in one of the k ranges from range `at` on.
fn ranges_reach(t: &[u8], at: usize, k: usize, peer: u64, c: u32, most: u32) -> Found
    requires { ((at + k) * 16 ≤ length t.now) × (0 < most) × (c < 2147483648) }
    ensures { Same (λ (j : ℕ). in_ranges (unit_id peer (c + j)) (ranges k (drop (at * 16) t.now))) most result }
{
    let mut hit = false;
    let mut len = most;
    for i in 0..k {
        let found = range_reach(peer, c, get_target(t, at + i), len);
        hit |= found.hit;
        len = found.len;
    }
    Found { hit, len }
}

// The id of the edit in row i, and how many target ranges it has.
pub(crate) fn edit_id(e: &[u8], i: usize) -> Id
    requires { i * 256 + 256 ≤ length e.now }
    ensures { result ≡ (edit_in (drop (i * 256) e.now)).id }
{
    let at = i * 256;
    store::id_of(
        u64::from_le_bytes(bytes_at(e, at)),
        u32::from_le_bytes(bytes_at(e, at + 16)),
    )
}

fn edit_took(e: &[u8], i: usize) -> u32
    requires { i * 256 + 256 ≤ length e.now }
    ensures { result ≡ took_in (drop (i * 256) e.now) }
{
    u32::from_le_bytes(bytes_at(e, i * 256 + 44))
}

// Whether the edit in row i, whose target ranges begin at range `at`, is in the version and took a unit. Of an edit that took none of these units, as most
// did, the version is not asked.
fn edit_reach(
    e: &[u8],
    i: usize,
    t: &[u8],
    at: usize,
    v: &[u8],
    m: usize,
    peer: u64,
    c: u32,
    most: u32,
) -> Found
    requires { (i * 256 + 256 ≤ length e.now) × ((at + took_in (drop (i * 256) e.now)) * 16 ≤ length t.now) × (m * 12 ≤ length v.now) × (0 < most) × (c < 2147483648) }
    ensures { Same (λ (j : ℕ). edit_takes (pairs m v.now) e.now i t.now at (unit_id peer (c + j))) most result }
{
    let took = edit_took(e, i);
    let found = ranges_reach(t, at, took as usize, peer, c, most);
    if !found.hit && found.len == most {
        return found;
    }
    if below(v, m, edit_id(e, i)) {
        found
    } else {
        Found {
            hit: false,
            len: most,
        }
    }
}

// How many deletes in the version took a unit.
fn edits_reach(
    e: &[u8],
    h: usize,
    t: &[u8],
    v: &[u8],
    m: usize,
    peer: u64,
    c: u32,
    most: u32,
) -> Taken
    requires { Looks h e.now t.now m v.now × (0 < most) × (c < 2147483648) }
    ensures { Takes (pairs m v.now) (held h e.now t.now) h peer c most result }
{
    let mut times = 0;
    let mut len = most;
    let mut at = 0;
    for i in 0..h {
        let found = edit_reach(e, i, t, at, v, m, peer, c, len);
        times += u32::from(found.hit);
        len = found.len;
        at += edit_took(e, i) as usize;
    }
    Taken { times, len }
}

// Whether a unit is in the version: the placeholder's are in every one.
fn version_reach(v: &[u8], m: usize, peer: u64, c: u32, most: u32) -> Found
    requires { (m * 12 ≤ length v.now) × (0 < most) }
    ensures { Same (λ (j : ℕ). in_version (pairs m v.now) (unit_id peer (c + j))) most result }
{
    if peer == UNKNOWN_PEER {
        Found {
            hit: true,
            len: most,
        }
    } else {
        below_reach(c, count_of(v, m, peer), most)
    }
}

// The status of a unit at the version v, and how many units from it on, `most` at the most, have it.
pub fn status_run(e: &[u8], h: usize, t: &[u8], v: &[u8], m: usize, id: Id, most: u32) -> Reach
    requires { Looks h e.now t.now m v.now × (0 < most) × (room_of id most ≡ true) }
    ensures { Reaches (pairs m v.now) (held h e.now t.now) id most result }
{
    let c = store::counter_bits(id);
    let peer = id.peer;
    let taken = edits_reach(e, h, t, v, m, peer, c, most);
    let known = version_reach(v, m, peer, c, taken.len);
    Reach {
        status: store::status_of(!known.hit, taken.times as u16),
        len: known.len,
    }
}
