// What refuses an edit in a well formed history: all of it is asked before anything is written.
ghost use Rattle.std.specs.Prelude.{◌≡◌, ◌+◌, ◌≤◌, length, nat_le};
ghost use Rattle.span.specs.Refusal.{code_of};
ghost use Rattle.span.specs.Span.{new_span, len_span};
ghost use Rattle.span.specs.Units.{expand};
ghost use Rattle.store.specs.Row.{rows};
ghost use Rattle.units.specs.Place.{shown};
ghost use Rattle.rope.specs.Pieces.{CanDelete};
ghost use Rattle.tracker.specs.Rows.{used};
ghost use Rattle.tracker.specs.Targets.{targets_of};
ghost use Rattle.tracker.specs.Arrivals.{units_seen, insert_fits, insert_rest, delete_fits, delete_rest, does_rest, Inserting, Deleting, Acting};

use crate::fits::insert_fits;
use crate::row::{Does, Head};
use crate::seen::{count_deleted, count_seen, count_targets, shown_seen};
use crate::used::used_len;
use rope::change::Delete;
use rope::check::units;
use rope::place::len_of;
use span::chunk::RichtextChunk;
use span::ids::Id;
use span::refusal::Refusal;
use span::span::FugueSpan;
use store::limits::{EDITS, UNITS};

// Whether the list at a version fits the room, and again with an insert. A list has no more rows than units: with room for these nothing is counted.
fn insert_in_rows(
    s: &[u8],
    n: usize,
    e: &[u8],
    h: usize,
    t: &[u8],
    v: &[u8],
    m: usize,
    at: u32,
    x: FugueSpan,
    many: usize,
    most: usize,
) -> bool
    requires { Inserting n s.now h e.now t.now m v.now x × (at ≤ shown (units_seen n s.now h e.now t.now m v.now)) × (many ≡ length (expand (rows n s.now)) + len_span x) }
    ensures { result ≡ insert_fits most (units_seen n s.now h e.now t.now m v.now) at x }
{
    if many <= most {
        return true;
    }
    let k = count_seen(s, n, e, h, t, v, m, v, m, false);
    k <= most && insert_fits(s, n, e, h, t, v, m, at, x, k, most)
}

// An insert at its context: 8, 9, 10.
pub fn refuse_insert(
    s: &[u8],
    n: usize,
    e: &[u8],
    h: usize,
    t: &[u8],
    v: &[u8],
    m: usize,
    at: u32,
    x: FugueSpan,
    most: usize,
) -> Result<(), Refusal>
    requires { Inserting n s.now h e.now t.now m v.now x × (n ≤ 65536) }
    ensures { code_of result ≡ insert_rest most h (units_seen n s.now h e.now t.now m v.now) at x }
{
    if shown_seen(s, n, e, h, t, v, m, v, m, false) < at as usize {
        return Err(Refusal::Range);
    }
    if EDITS <= h {
        return Err(Refusal::Edits);
    }
    let list = store::list::rows(s, n);
    let many = units(list) + len_of(x);
    if UNITS < many || !insert_in_rows(s, n, e, h, t, v, m, at, x, many, most) {
        return Err(Refusal::Room);
    }
    Ok(())
}

// The same of a delete, which makes no units.
fn delete_in_rows(
    s: &[u8],
    n: usize,
    e: &[u8],
    h: usize,
    t: &[u8],
    v: &[u8],
    m: usize,
    d: Delete,
    most: usize,
) -> bool
    requires { Deleting n s.now h e.now t.now m v.now d × CanDelete d }
    ensures { result ≡ delete_fits most (units_seen n s.now h e.now t.now m v.now) d }
{
    let list = store::list::rows(s, n);
    units(list) <= most
        || (count_seen(s, n, e, h, t, v, m, v, m, false) <= most
            && count_deleted(s, n, e, h, t, v, m, d) <= most)
}

// Whether the target ranges that a delete takes fit the free room. They are no more than the units that it takes.
fn targets_in_room(
    s: &[u8],
    n: usize,
    e: &[u8],
    h: usize,
    t: &[u8],
    v: &[u8],
    m: usize,
    d: Delete,
    free: usize,
) -> bool
    requires { Deleting n s.now h e.now t.now m v.now d × CanDelete d }
    ensures { result ≡ nat_le (length (targets_of d (units_seen n s.now h e.now t.now m v.now))) free }
{
    d.len as usize <= free || count_targets(s, n, e, h, t, v, m, d) <= free
}

// A delete at its context: 8, 9, 10.
pub fn refuse_delete(
    s: &[u8],
    n: usize,
    e: &[u8],
    h: usize,
    t: &[u8],
    v: &[u8],
    m: usize,
    d: Delete,
    most: usize,
    places: usize,
) -> Result<(), Refusal>
    requires { Deleting n s.now h e.now t.now m v.now d × (used h e.now ≤ places) }
    ensures { code_of result ≡ delete_rest most places h (used h e.now) (units_seen n s.now h e.now t.now m v.now) d }
{
    if shown_seen(s, n, e, h, t, v, m, v, m, false) < d.at as usize + d.len as usize {
        return Err(Refusal::Range);
    }
    if EDITS <= h {
        return Err(Refusal::Edits);
    }
    if !delete_in_rows(s, n, e, h, t, v, m, d, most) {
        return Err(Refusal::Room);
    }
    let free = places - used_len(e, h);
    if !targets_in_room(s, n, e, h, t, v, m, d, free) {
        return Err(Refusal::Room);
    }
    Ok(())
}

// The insert of a new span, which 1 and 2 do not refuse.
pub fn refuse_new(
    s: &[u8],
    n: usize,
    e: &[u8],
    h: usize,
    t: &[u8],
    v: &[u8],
    m: usize,
    at: u32,
    id: Id,
    lamport: u32,
    content: RichtextChunk,
    most: usize,
) -> Result<(), Refusal>
    requires { Inserting n s.now h e.now t.now m v.now (new_span id lamport content) × (n ≤ 65536) }
    ensures { code_of result ≡ insert_rest most h (units_seen n s.now h e.now t.now m v.now) at (new_span id lamport content) }
{
    let x = FugueSpan::new(id, lamport, content)?;
    refuse_insert(s, n, e, h, t, v, m, at, x, most)
}

// An edit that 1 to 7 do not refuse, at its context.
pub fn refuse_act(
    s: &[u8],
    n: usize,
    e: &[u8],
    h: usize,
    t: &[u8],
    v: &[u8],
    m: usize,
    x: Head,
    most: usize,
    places: usize,
) -> Result<(), Refusal>
    requires { Acting n s.now h e.now t.now m v.now x places }
    ensures { code_of result ≡ does_rest most places h (used h e.now) (units_seen n s.now h e.now t.now m v.now) x.id x.at x.act }
{
    match x.act {
        Does::Insert(lamport, content) => {
            refuse_new(s, n, e, h, t, v, m, x.at, x.id, lamport, content, most)
        }
        Does::Delete(len, _, start) => {
            let d = Delete {
                at: x.at,
                len,
                start,
            };
            refuse_delete(s, n, e, h, t, v, m, d, most, places)
        }
    }
}
