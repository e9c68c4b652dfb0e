// The delta between two versions: A as status and B as diff_status on every unit, the entries in lent columns, and the list at A afterwards.
// All refusals are decided before the first write.
ghost use Rattle.std.specs.Prelude.{◌≡◌, true, List, ℕ, ◌*◌, ◌≤◌, length};
ghost use Rattle.span.specs.declared.span.FugueSpan.{FugueSpan};
ghost use Rattle.span.specs.Refusal.{code_of};
ghost use Rattle.store.specs.Header.{spans_of};
ghost use Rattle.store.specs.Limits.{EDITS};
ghost use Rattle.rope.specs.Edits.{WrittenIn};
ghost use Rattle.rope.specs.Columns.{least, diff_rows_code, Diffed};
ghost use Rattle.tracker.specs.Rows.{pairs, held, is_history};
ghost use Rattle.tracker.specs.Entries.{version_in, version_of};
ghost use Rattle.tracker.specs.Measures.{Measures};
ghost use Rattle.tracker.specs.Between.{versions_code, rooms_code, both_of, one_of, Between, Readied, Deltas};

use crate::check::check;
use crate::columns::put_version;
use crate::held::{closed, named};
use crate::measure::{Measure, measure_delta};
use crate::row::edit_count;
use crate::seen::count_seen;
use crate::stand::stand;
use rope::diff::{diff_rows, shortest};
use span::refusal::Refusal;
use store::header;
use store::limits::PEERS;

// What the writing needs: edits, rows, rows with both statuses, rows at A.
#[derive(Clone, Copy)]
pub struct Ready {
    pub edits: usize,
    pub rows: usize,
    pub both: usize,
    pub one: usize,
}

// What refuses two versions. The edits lie within the bytes, as the entries asked.
#[tactic(auto, unfolding(crate::specs::Between::versions_code))]
pub fn check_versions(
    e: &[u8],
    h: usize,
    a: &[u8],
    ka: usize,
    b: &[u8],
    kb: usize,
) -> Result<(), Refusal>
    requires { (h * 256 ≤ length e.now) × (h ≤ EDITS) × (ka * 12 ≤ length a.now) × (kb * 12 ≤ length b.now) }
    ensures { (t : List ℕ) → code_of result ≡ versions_code (held h e.now t) (pairs ka a.now) (pairs kb b.now) }
{
    if !(named(e, h, a, ka) && named(e, h, b, kb)) {
        return Err(Refusal::Version);
    }
    if !(closed(e, h, a, ka) && closed(e, h, b, kb)) {
        return Err(Refusal::NotClosed);
    }
    Ok(())
}

// What refuses a list with both statuses that was measured: no room for it, an insert without real id, no room for the entries.
#[tactic(auto, unfolding(crate::specs::Between::rooms_code, rope::specs::Columns::diff_rows_code, units::specs::Limits::fits))]
pub fn check_rooms(m: Measure, spans: usize, most: usize) -> Result<(), Refusal>
    ensures { (l : List FugueSpan) → Measures l m → code_of result ≡ rooms_code spans most l }
{
    if spans < m.rows {
        return Err(Refusal::Room);
    }
    if !m.fine {
        return Err(Refusal::NoRealId);
    }
    if most < m.entries {
        return Err(Refusal::Output);
    }
    Ok(())
}

// What refuses a delta of a well formed history, of versions in pairs, each in room for the most pairs that it can have.
pub fn make_ready(
    s: &[u8],
    t: &[u8],
    e: &[u8],
    a: &[u8],
    ka: usize,
    b: &[u8],
    kb: usize,
    most: usize,
) -> Result<Ready, Refusal>
    requires { (is_history s.now t.now e.now ≡ true) × (192 ≤ length a.now) × (192 ≤ length b.now) }
    ensures { Readied s.now t.now e.now ka a.now kb b.now most result }
{
    if PEERS < ka || PEERS < kb {
        return Err(Refusal::Version);
    }
    let h = edit_count(e) as usize;
    check_versions(&e[64..], h, a, ka, b, kb)?;
    let n = header::count(s) as usize;
    let m = measure_delta(&s[72..], n, &e[64..], h, t, a, ka, b, kb);
    check_rooms(m, header::room(s), most)?;
    Ok(Ready {
        edits: h,
        rows: n,
        both: m.rows,
        one: count_seen(&s[72..], n, &e[64..], h, t, a, ka, a, ka, false),
    })
}

// The entries go into the columns, and the list to A. There is room for the rows, as the entry asked.
pub fn write_delta(
    s: &mut [u8],
    n: usize,
    k: usize,
    m: usize,
    e: &[u8],
    h: usize,
    t: &[u8],
    a: &[u8],
    ka: usize,
    b: &[u8],
    kb: usize,
    kind: &mut [u8],
    x: &mut [u32],
    y: &mut [u32],
    peer: &mut [u64],
    counter: &mut [u32],
    lamport: &mut [u32],
) -> Result<usize, Refusal>
    requires { Between n k m s.old h e.now t.now ka a.now kb b.now }
    ensures { WrittenIn (one_of h e.now t.now ka a.now (spans_of s.old)) s.old s.new × Diffed (diff_rows_code (least (length kind.old) (length x.old) (length y.old) (length peer.old) (length counter.old) (length lamport.old)) (both_of h e.now t.now ka a.now kb b.now (spans_of s.old))) (both_of h e.now t.now ka a.now kb b.now (spans_of s.old)) result kind.old x.old y.old peer.old counter.old lamport.old kind.new x.new y.new peer.new counter.new lamport.new }
{
    stand(s, n, k, e, h, t, a, ka, b, kb, true);
    let r = diff_rows(&s[72..], k, kind, x, y, peer, counter, lamport);
    stand(s, k, m, e, h, t, a, ka, a, ka, false);
    r
}

// The delta of a well formed history, of versions in pairs, as the entry asked and made them.
pub fn delta_to(
    s: &mut [u8],
    t: &[u8],
    e: &[u8],
    a: &[u8],
    ka: usize,
    b: &[u8],
    kb: usize,
    kind: &mut [u8],
    x: &mut [u32],
    y: &mut [u32],
    peer: &mut [u64],
    counter: &mut [u32],
    lamport: &mut [u32],
) -> Result<usize, Refusal>
    requires { (is_history s.old t.now e.now ≡ true) × (192 ≤ length a.now) × (192 ≤ length b.now) }
    ensures { Deltas s.old t.now e.now (version_in ka a.now) (version_in kb b.now) (least (length kind.old) (length x.old) (length y.old) (length peer.old) (length counter.old) (length lamport.old)) result s.new kind.old x.old y.old peer.old counter.old lamport.old kind.new x.new y.new peer.new counter.new lamport.new }
{
    let most = shortest(
        kind.len(),
        x.len(),
        y.len(),
        peer.len(),
        counter.len(),
        lamport.len(),
    );
    let to = make_ready(s, t, e, a, ka, b, kb, most)?;
    write_delta(
        s,
        to.rows,
        to.both,
        to.one,
        &e[64..],
        to.edits,
        t,
        a,
        ka,
        b,
        kb,
        kind,
        x,
        y,
        peer,
        counter,
        lamport,
    )
}

// The delta from A to B, versions in columns: its entries in the columns, and how many there are.
pub fn delta(
    s: &mut [u8],
    t: &[u8],
    e: &[u8],
    from_peers: &[u64],
    from_counts: &[u32],
    to_peers: &[u64],
    to_counts: &[u32],
    kind: &mut [u8],
    x: &mut [u32],
    y: &mut [u32],
    peer: &mut [u64],
    counter: &mut [u32],
    lamport: &mut [u32],
) -> Result<usize, Refusal>
    ensures { Deltas s.old t.now e.now (version_of from_peers.now from_counts.now) (version_of to_peers.now to_counts.now) (least (length kind.old) (length x.old) (length y.old) (length peer.old) (length counter.old) (length lamport.old)) result s.new kind.old x.old y.old peer.old counter.old lamport.old kind.new x.new y.new peer.new counter.new lamport.new }
{
    if !check(s, t, e) {
        return Err(Refusal::Store);
    }
    let mut a = [0u8; 192];
    let ka = put_version(&mut a, from_peers, from_counts);
    let mut b = [0u8; 192];
    let kb = put_version(&mut b, to_peers, to_counts);
    delta_to(s, t, e, &a, ka, &b, kb, kind, x, y, peer, counter, lamport)
}
