// Refusal 15 of a history, the units: the list has those of the placeholder and of the edits' inserts, as many, each with its lamport, chunk and real id.
// A row is compared by runs: where a unit of it is the same as one of a span, so are those after it as far as both reach.
ghost use Rattle.std.specs.Prelude.{◌≡◌, true, ◌&&◌, ◌||◌, List, [], ◌++◌, ℕ, ◌+◌, ◌*◌, ◌<◌, ◌≤◌, min, length, drop, ◌==◌};
ghost use Rattle.span.specs.Ids.{UNKNOWN_PEER, same_opt};
ghost use Rattle.span.specs.Span.{span_code, len_span, new_span};
ghost use Rattle.span.specs.Units.{unit_at, units_of, expand};
ghost use Rattle.store.specs.Row.{rows};
ghost use Rattle.store.specs.Limits.{EDITS};
ghost use Rattle.rope.specs.Spans.{AllOk, Stored};
ghost use Rattle.history.specs.Arrive.{start};
ghost use Rattle.history.specs.Valid.{act_units, edits_fit, edit_units, same_unit, same_units};
ghost use Rattle.tracker.specs.Rows.{to_edit, context_in, edit_in, held};
ghost use Rattle.tracker.specs.Made.{makes, made_in, FineAct, AllFine, all_made, Meets};

use crate::row::{Does, Head, get_head};
use rope::check::units;
use rope::find::offset_of;
use span::chunk::RichtextChunk;
use span::ids::{Id, UNKNOWN_PEER};
use span::span::FugueSpan;
use store::limits::UNITS;

// Whether two units are the same. The real id of a placeholder's is free.
fn same_unit(u: FugueSpan, v: FugueSpan) -> bool
    ensures { result ≡ same_unit u v }
{
    u.id == v.id
        && u.lamport == v.lamport
        && u.content == v.content
        && (u.id.peer == UNKNOWN_PEER || u.real_id == v.real_id)
}

// Unit k of a span.
fn unit(x: FugueSpan, k: u32) -> FugueSpan
    requires { (span_code x ≡ 0) × (k < len_span x) }
    ensures { result ≡ unit_at x k }
{
    x.piece(k, k + 1)
}

// How many units of a row from unit k on are units of x.
fn reach(row: FugueSpan, k: u32, x: FugueSpan) -> u32
    requires { (span_code row ≡ 0) × (k < len_span row) × (span_code x ≡ 0) }
    ensures { Meets row k (units_of x) result }
{
    let u = unit(row, k);
    let Some(d) = offset_of(x, Some(u.id)) else {
        return 0;
    };
    if same_unit(u, unit(x, d)) {
        (row.rle_len() - k).min(x.rle_len() - d)
    } else {
        0
    }
}

// The same of what an insert makes.
fn reach_new(row: FugueSpan, k: u32, id: Id, lamport: u32, c: RichtextChunk) -> u32
    requires { (span_code row ≡ 0) × (k < len_span row) × (span_code (new_span id lamport c) ≡ 0) }
    ensures { Meets row k (units_of (new_span id lamport c)) result }
{
    let Ok(x) = FugueSpan::new(id, lamport, c) else {
        return 0;
    };
    reach(row, k, x)
}

// The edit in row i.
fn head_at(e: &[u8], i: usize) -> Head
    requires { i * 256 + 256 ≤ length e.now }
    ensures { to_edit result (context_in (drop (i * 256) e.now)) ≡ edit_in (drop (i * 256) e.now) }
{
    get_head(&e[i * 256..])
}

// The same of what the edit in row i makes.
fn reach_edit(row: FugueSpan, k: u32, e: &[u8], i: usize) -> u32
    requires { (span_code row ≡ 0) × (k < len_span row) × (i * 256 + 256 ≤ length e.now) × FineAct (edit_in (drop (i * 256) e.now)).act (edit_in (drop (i * 256) e.now)).id }
    ensures { Meets row k (act_units (edit_in (drop (i * 256) e.now)).act (edit_in (drop (i * 256) e.now))) result }
{
    let head = head_at(e, i);
    match head.act {
        Does::Insert(lamport, c) => reach_new(row, k, head.id, lamport, c),
        Does::Delete(_, _, _) => 0,
    }
}

// The same of what h edits make.
fn reach_edits(row: FugueSpan, k: u32, e: &[u8], h: usize) -> u32
    requires { (span_code row ≡ 0) × (k < len_span row) × (h * 256 ≤ length e.now) × AllFine h e.now }
    ensures { Meets row k (makes h e.now) result }
{
    for i in 0..h {
        let r = reach_edit(row, k, e, i);
        if r != 0 {
            return r;
        }
    }
    0
}

// The same of a placeholder of p units.
fn reach_holder(row: FugueSpan, k: u32, p: u32) -> u32
    requires { (span_code row ≡ 0) × (k < len_span row) × (p ≤ 65536) }
    ensures { Meets row k (start p).list result }
{
    if p == 0 {
        return 0;
    }
    let id = Id {
        peer: UNKNOWN_PEER,
        counter: 0,
    };
    let c = RichtextChunk {
        start: RichtextChunk::UNKNOWN,
        end: p,
    };
    reach_new(row, k, id, 0, c)
}

// The same of both.
fn reach_made(row: FugueSpan, k: u32, e: &[u8], h: usize, p: u32) -> u32
    requires { (span_code row ≡ 0) × (k < len_span row) × (h * 256 ≤ length e.now) × AllFine h e.now × (p ≤ 65536) }
    ensures { Meets row k (made_in p h e.now) result }
{
    let r = reach_holder(row, k, p);
    if r != 0 {
        return r;
    }
    reach_edits(row, k, e, h)
}

// Whether a row's units are some of these.
fn row_made(row: FugueSpan, e: &[u8], h: usize, p: u32) -> bool
    requires { (span_code row ≡ 0) × (h * 256 ≤ length e.now) × AllFine h e.now × (p ≤ 65536) }
    ensures { result ≡ all_made (made_in p h e.now) (units_of row) }
{
    let n = row.rle_len();
    let mut k = 0;
    while k < n {
        let r = reach_made(row, k, e, h, p);
        if r == 0 {
            return false;
        }
        k += r;
    }
    true
}

// Whether the units of n rows are.
fn rows_made(s: &[u8], n: usize, e: &[u8], h: usize, p: u32) -> bool
    requires { (n * 72 ≤ length s.now) × AllOk (rows n s.now) × (h * 256 ≤ length e.now) × AllFine h e.now × (p ≤ 65536) }
    ensures { result ≡ all_made (made_in p h e.now) (expand (rows n s.now)) }
{
    for i in 0..n {
        if !row_made(store::get_row(s, i), e, h, p) {
            return false;
        }
    }
    true
}

// How many units the edit in row i makes.
fn made_len(e: &[u8], i: usize) -> u32
    requires { i * 256 + 256 ≤ length e.now }
    ensures { result ≡ length (act_units (edit_in (drop (i * 256) e.now)).act (edit_in (drop (i * 256) e.now))) }
{
    match head_at(e, i).act {
        Does::Insert(_, c) => c.len(),
        Does::Delete(_, _, _) => 0,
    }
}

// How many units h edits make.
fn sum_made(e: &[u8], h: usize) -> u64
    requires { (h * 256 ≤ length e.now) × (h ≤ EDITS) }
    ensures { (result ≡ length (makes h e.now)) × (result ≤ 8589934590000) }
{
    let mut sum = 0;
    for i in 0..h {
        sum += u64::from(made_len(e, i));
    }
    sum
}

// Whether the list's units are those that the placeholder and the edits made. That the edits fit is what `check` asks before.
pub fn same_units(s: &[u8], n: usize, e: &[u8], h: usize, placeholder: u64) -> bool
    requires { Stored n s.now × (h * 256 ≤ length e.now) × (h ≤ EDITS) × ((t : List ℕ) → edits_fit [] (held h e.now t) ≡ true) }
    ensures { (t : List ℕ) → result ≡ same_units (expand (rows n s.now)) ((start placeholder).list ++ edit_units (held h e.now t)) }
{
    let list = store::list::rows(s, n);
    placeholder <= UNITS as u64
        && units(list) as u64 == placeholder + sum_made(e, h)
        && rows_made(s, n, e, h, placeholder as u32)
}
