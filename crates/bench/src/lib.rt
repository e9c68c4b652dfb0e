// Questions to a store and the calls of a history, for the programs in tests/, which own the memory. Crate `bench_c` exports them.
#![tactic(auto)]

use span::ids::Id;
use span::refusal::{Refusal, code_of};

// What is counted, times 256, or the number of the refusal.
fn counted(answer: Result<usize, Refusal>) -> u64 {
    match answer {
        Ok(n) => (n as u64) << 8,
        Err(refusal) => u64::from(refusal.number()),
    }
}

#[unsafe(no_mangle)]
pub extern "C" fn bench_check(s: &[u8]) -> bool {
    rope::state::check(s)
}

#[unsafe(no_mangle)]
pub extern "C" fn bench_visible_len(s: &[u8]) -> u64 {
    rope::query::visible_len(s).unwrap_or(0) as u64
}

// The units left in the span at a visible position.
#[unsafe(no_mangle)]
pub extern "C" fn bench_real_span_at(s: &[u8], pos: u32) -> u32 {
    match rope::query::active_real_span_at(s, pos) {
        Ok(Some((_, left))) => left,
        Ok(None) | Err(_) => 0,
    }
}

// The row that has an id, with no check before: what one search costs.
#[unsafe(no_mangle)]
pub extern "C" fn bench_find(s: &[u8], peer: u64, counter: u16) -> usize {
    if s.len() < 72 {
        return 0;
    }
    let n = (s.len() - 72) / 72;
    let id = Id {
        peer,
        counter: i32::from(counter),
    };
    match rope::find::find_elem(store::list::rows(&s[72..], n), Some(id)) {
        Some((i, _)) => i,
        None => n,
    }
}

// Opens a history with a placeholder of n units: 0 or the number of the refusal.
#[unsafe(no_mangle)]
pub extern "C" fn bench_open_with(s: &mut [u8], t: &[u8], e: &mut [u8], n: u32) -> u8 {
    code_of(tracker::open::open_with(s, t, e, n))
}

// The edits in rows of 256 bytes arrive: how many were taken, times 256, plus the number of the refusal.
#[unsafe(no_mangle)]
pub extern "C" fn bench_arrive_all(s: &mut [u8], t: &mut [u8], e: &mut [u8], rows: &[u8]) -> u64 {
    let run = tracker::run::arrive_all(s, t, e, rows);
    ((run.taken as u64) << 8) | u64::from(code_of(run.outcome))
}

// The edit whose head stands in a row arrives, its context in columns: 0 or the number of the refusal; 255 where the row is too short.
#[unsafe(no_mangle)]
pub extern "C" fn bench_arrive(
    s: &mut [u8],
    t: &mut [u8],
    e: &mut [u8],
    row: &[u8],
    peers: &[u64],
    counts: &[u32],
) -> u8 {
    if row.len() < 64 {
        return 255;
    }
    let x = tracker::row::get_head(row);
    code_of(tracker::arrive::arrive(s, t, e, x, peers, counts))
}

// The list goes to a version: 0 or the number of the refusal.
#[unsafe(no_mangle)]
pub extern "C" fn bench_checkout(
    s: &mut [u8],
    t: &[u8],
    e: &[u8],
    peers: &[u64],
    counts: &[u32],
) -> u8 {
    code_of(tracker::checkout::checkout(s, t, e, peers, counts))
}

// Opens a history without a placeholder: 0 or the number of the refusal.
#[unsafe(no_mangle)]
pub extern "C" fn bench_open(s: &mut [u8], t: &[u8], e: &mut [u8]) -> u8 {
    code_of(tracker::open::open(s, t, e))
}

// The visible length of a history's list, times 256, or the number of the refusal.
#[unsafe(no_mangle)]
pub extern "C" fn bench_history_len(s: &[u8], t: &[u8], e: &[u8]) -> u64 {
    counted(tracker::query::visible_len(s, t, e))
}

// The units left in the span at a visible position, times 256, or the number of the refusal; 255 for nothing.
#[unsafe(no_mangle)]
pub extern "C" fn bench_history_at(s: &[u8], t: &[u8], e: &[u8], pos: u32) -> u64 {
    match tracker::query::active_real_span_at(s, t, e, pos) {
        Ok(Some((_, left))) => u64::from(left) << 8,
        Ok(None) => 255,
        Err(refusal) => u64::from(refusal.number()),
    }
}

// The delta between two versions into columns: how many entries, times 256, or the number of the refusal.
#[unsafe(no_mangle)]
pub extern "C" fn bench_delta(
    s: &mut [u8],
    t: &[u8],
    e: &[u8],
    from_peers: &[u64],
    from_counts: &[u32],
    to_peers: &[u64],
    to_counts: &[u32],
    kind: &mut [u8],
    x: &mut [u32],
    y: &mut [u32],
    peer: &mut [u64],
    counter: &mut [u32],
    lamport: &mut [u32],
) -> u64 {
    counted(tracker::delta::delta(
        s,
        t,
        e,
        from_peers,
        from_counts,
        to_peers,
        to_counts,
        kind,
        x,
        y,
        peer,
        counter,
        lamport,
    ))
}
