// get_diff: the delta from each span's status to its diff_status, one entry after the other, and all of them in lent columns of numbers.
ghost use Rattle.std.specs.Prelude.{◌≡◌, ◌+◌, ◌<◌, length, Ok};
ghost use Rattle.span.specs.Answer.{answer};
ghost use Rattle.span.specs.Refusal.{refused};
ghost use Rattle.store.specs.Row.{rows};
ghost use Rattle.store.specs.Listed.{spans};
ghost use Rattle.units.specs.Lists.{every};
ghost use Rattle.units.specs.Store.{spans_of};
ghost use Rattle.rope.specs.Spans.{Stored};
ghost use Rattle.units.specs.Delta.{lamport_of, insert_of_span, insertable, entries};
ghost use Rattle.rope.specs.Columns.{change_of, step_by, entry_numbers, insert_numbers, least, Ahead, NextOf, Hold, Set, Filled, Diffed, diff_rows_code, get_diff_code};

use crate::state::check;
use span::chunk::RichtextChunk;
use span::ids::{Id, UNKNOWN_PEER};
use span::refusal::Refusal;
use span::span::{DiffStatus, FugueSpan};
use store::header;
use store::list::{self, Row, span_of};
use units::diff::Entry;

// An entry, with the row and the gap from which the rest goes on.
#[derive(Clone, Copy)]
pub struct Step {
    pub entry: Entry,
    pub row: usize,
    pub gap: u32,
}

// An entry as numbers, one for each column. The kind is 0 Retain, 1 Delete, 2 Insert, 3 Insert without lamport; a is the length or the chunk's
// start, b the chunk's end; the counter stands by its bits. What an entry does not have is 0.
#[derive(Clone, Copy, Default)]
pub struct EntryNumbers {
    pub kind: u8,
    pub a: u32,
    pub b: u32,
    pub peer: u64,
    pub counter: u32,
    pub lamport: u32,
}

// ---- One span

// The lamport of an Insert: none for the unknown peer.
#[tactic(auto, unfolding(units::specs::Delta::lamport_of))]
fn lamport_of(row: FugueSpan) -> Option<u32>
    ensures { result ≡ lamport_of row }
{
    if row.id.peer == UNKNOWN_PEER {
        None
    } else {
        Some(row.lamport)
    }
}

#[tactic(auto, unfolding(units::specs::Delta::insert_of_span))]
fn insert_of(row: FugueSpan) -> Entry
    ensures { result ≡ insert_of_span row }
{
    Entry::Insert(row.content, row.real_id(), lamport_of(row))
}

// What becomes of a span, as an entry.
#[tactic(auto, unfolding(crate::specs::Columns::change_of))]
pub fn change_of(row: FugueSpan) -> Option<Entry>
    ensures { result ≡ change_of row }
{
    match row.diff() {
        DiffStatus::NotChanged => None,
        DiffStatus::Created => Some(insert_of(row)),
        DiffStatus::Deleted => Some(Entry::Delete(row.rle_len())),
    }
}

// Whether the delta may have this span: what comes in needs a real id.
#[tactic(auto, unfolding(units::specs::Delta::insertable))]
fn can_insert(row: FugueSpan) -> bool
    ensures { result ≡ insertable row }
{
    row.diff() != DiffStatus::Created || row.real_id.is_some()
}

// ---- One entry after the other

// A change of row i after a gap: the gap is given first, as a Retain, and the change the next time.
#[tactic(auto, unfolding(crate::specs::Columns::step_by))]
fn gap_first(gap: u32, i: usize, entry: Entry) -> Step
    requires { i < 18446744073709551615 }
    ensures { result ≡ step_by gap i entry }
{
    if gap == 0 {
        Step {
            entry,
            row: i + 1,
            gap: 0,
        }
    } else {
        Step {
            entry: Entry::Retain(gap),
            row: i,
            gap: 0,
        }
    }
}

// The first entry from row `from` on, with `since` visible units since the last change.
pub fn next_entry(s: &[u8], n: usize, from: usize, since: u32) -> Option<Step>
    requires { Ahead n s.now from since }
    ensures { NextOf (rows n s.now) from since result }
{
    let mut gap = since;
    for i in from..n {
        let row = store::get_row(s, i);
        if let Some(entry) = change_of(row) {
            return Some(gap_first(gap, i, entry));
        }
        gap += row.activated_len();
    }
    None
}

// Whether the delta has a real id for all that comes in.
pub fn all_real(rows: &[Row]) -> bool
    ensures { result ≡ every insertable (spans rows.now) }
{
    for row in rows {
        if !can_insert(span_of(row)) {
            return false;
        }
    }
    true
}

// How many entries the delta has.
pub fn count_entries(s: &[u8], n: usize) -> usize
    requires { Stored n s.now }
    ensures { result ≡ length (entries (rows n s.now)) }
{
    let mut i = 0;
    let mut gap = 0;
    let mut k = 0;
    while let Some(next) = next_entry(s, n, i, gap) {
        i = next.row;
        gap = next.gap;
        k += 1;
    }
    k
}

// ---- Columns

// An entry as numbers.
#[tactic(auto, unfolding(crate::specs::Columns::entry_numbers))]
pub fn numbers_of(entry: Entry) -> EntryNumbers
    ensures { result ≡ entry_numbers entry }
{
    match entry {
        Entry::Retain(n) => EntryNumbers {
            a: n,
            ..EntryNumbers::default()
        },
        Entry::Delete(n) => EntryNumbers {
            kind: 1,
            a: n,
            ..EntryNumbers::default()
        },
        Entry::Insert(content, id, lamport) => insert_numbers(content, id, lamport),
    }
}

fn insert_numbers(content: RichtextChunk, id: Id, lamport: Option<u32>) -> EntryNumbers
    ensures { result ≡ insert_numbers content id lamport }
{
    EntryNumbers {
        kind: if lamport.is_some() { 2 } else { 3 },
        a: content.start,
        b: content.end,
        peer: id.peer,
        counter: store::counter_bits(id),
        lamport: lamport.unwrap_or(0),
    }
}

// An entry in place k of each column.
fn put_entry(
    kind: &mut [u8],
    a: &mut [u32],
    b: &mut [u32],
    peer: &mut [u64],
    counter: &mut [u32],
    lamport: &mut [u32],
    k: usize,
    x: EntryNumbers,
)
    requires { Hold (k + 1) kind.old a.old b.old peer.old counter.old lamport.old }
    ensures { Set k x kind.old a.old b.old peer.old counter.old lamport.old kind.new a.new b.new peer.new counter.new lamport.new }
{
    kind[k] = x.kind;
    a[k] = x.a;
    b[k] = x.b;
    peer[k] = x.peer;
    counter[k] = x.counter;
    lamport[k] = x.lamport;
}

// All entries, at the fronts of the columns.
fn write_entries(
    s: &[u8],
    n: usize,
    kind: &mut [u8],
    a: &mut [u32],
    b: &mut [u32],
    peer: &mut [u64],
    counter: &mut [u32],
    lamport: &mut [u32],
)
    requires { Stored n s.now × Hold (length (entries (rows n s.now))) kind.old a.old b.old peer.old counter.old lamport.old }
    ensures { Filled (entries (rows n s.now)) kind.old a.old b.old peer.old counter.old lamport.old kind.new a.new b.new peer.new counter.new lamport.new }
{
    let mut i = 0;
    let mut gap = 0;
    let mut k = 0;
    while let Some(next) = next_entry(s, n, i, gap) {
        put_entry(
            kind,
            a,
            b,
            peer,
            counter,
            lamport,
            k,
            numbers_of(next.entry),
        );
        i = next.row;
        gap = next.gap;
        k += 1;
    }
}

// A room of several columns is as long as its shortest.
pub fn shortest(
    kind: usize,
    a: usize,
    b: usize,
    peer: usize,
    counter: usize,
    lamport: usize,
) -> usize
    ensures { result ≡ least kind a b peer counter lamport }
{
    kind.min(a.min(b.min(peer.min(counter.min(lamport)))))
}

// How many entries the delta has, where nothing refuses it: what comes in has a real id, and the entries fit a room of so many.
pub fn diff_len(s: &[u8], n: usize, room: usize) -> Result<usize, Refusal>
    requires { Stored n s.now }
    ensures { result ≡ answer Ok refused (diff_rows_code room (rows n s.now)) (length (entries (rows n s.now))) }
{
    let list = list::rows(s, n);
    if !all_real(list) {
        return Err(Refusal::NoRealId);
    }
    let many = count_entries(s, n);
    if room < many {
        return Err(Refusal::Output);
    }
    Ok(many)
}

// get_diff of the rows.
pub fn diff_rows(
    s: &[u8],
    n: usize,
    kind: &mut [u8],
    a: &mut [u32],
    b: &mut [u32],
    peer: &mut [u64],
    counter: &mut [u32],
    lamport: &mut [u32],
) -> Result<usize, Refusal>
    requires { Stored n s.now }
    ensures { Diffed (diff_rows_code (least (length kind.old) (length a.old) (length b.old) (length peer.old) (length counter.old) (length lamport.old)) (rows n s.now)) (rows n s.now) result kind.old a.old b.old peer.old counter.old lamport.old kind.new a.new b.new peer.new counter.new lamport.new }
{
    let room = shortest(
        kind.len(),
        a.len(),
        b.len(),
        peer.len(),
        counter.len(),
        lamport.len(),
    );
    let many = diff_len(s, n, room)?;
    write_entries(s, n, kind, a, b, peer, counter, lamport);
    Ok(many)
}

// The delta of a store from its spans' status to their diff_status: its entries in the columns, and how many there are.
pub fn get_diff(
    s: &[u8],
    kind: &mut [u8],
    a: &mut [u32],
    b: &mut [u32],
    peer: &mut [u64],
    counter: &mut [u32],
    lamport: &mut [u32],
) -> Result<usize, Refusal>
    ensures { Diffed (get_diff_code (least (length kind.old) (length a.old) (length b.old) (length peer.old) (length counter.old) (length lamport.old)) s.now) (spans_of s.now) result kind.old a.old b.old peer.old counter.old lamport.old kind.new a.new b.new peer.new counter.new lamport.new }
{
    if !check(s) {
        return Err(Refusal::Store);
    }
    let n = header::count(s) as usize;
    diff_rows(&s[72..], n, kind, a, b, peer, counter, lamport)
}
