// The calls that edit a store in lent bytes. A refused call keeps every byte.
ghost use Rattle.std.specs.Prelude.{◌≡◌, ◌+◌, ◌*◌, true, drop};
ghost use Rattle.span.specs.Refusal.{code_of};
ghost use Rattle.span.specs.Span.{span_code, new_span};
ghost use Rattle.span.specs.Units.{expand, join};
ghost use Rattle.store.specs.Row.{rows};
ghost use Rattle.units.specs.Change.{clear_units};
ghost use Rattle.units.specs.Store.{room, spans_of, is_state, state_code};
ghost use Rattle.units.specs.Codes.{insert_code};
ghost use Rattle.rope.specs.Plans.{planned};
ghost use Rattle.rope.specs.Edits.{WrittenIn, EditedIn, insert_number, insert_list, insert_first, Asked, Writable};

use crate::check::units;
use crate::clear::clear_rows;
use crate::find::holds;
use crate::insert::{Plan, perform, plan_insert};
use crate::place::len_of;
use crate::seek::visible;
use crate::state::check;
use span::chunk::RichtextChunk;
use span::ids::{Id, UNKNOWN_PEER};
use span::refusal::Refusal;
use span::span::FugueSpan;
use store::limits::UNITS;
use store::{header, list};

// Inserts a new span at a visible position.
pub fn insert(
    s: &mut [u8],
    pos: u32,
    id: Id,
    lamport: u32,
    content: RichtextChunk,
) -> Result<(), Refusal>
    ensures { EditedIn (insert_number s.old pos (new_span id lamport content)) (insert_list s.old pos (new_span id lamport content)) (code_of result) s.old s.new }
{
    if !check(s) {
        return Err(Refusal::Store);
    }
    insert_span(s, pos, FugueSpan::new(id, lamport, content)?)
}

// The same, where the store and the span are well formed.
pub fn insert_span(s: &mut [u8], pos: u32, x: FugueSpan) -> Result<(), Refusal>
    requires { (is_state s.old ≡ true) × (span_code x ≡ 0) }
    ensures { EditedIn (insert_code (room s.old) (spans_of s.old) pos x) (insert_list s.old pos x) (code_of result) s.old s.new }
{
    let n = header::count(s) as usize;
    let rows = &s[72..];
    let list = list::rows(rows, n);
    let sum = units(list);
    first_code(rows, n, sum, pos, x)?;
    let p = plan_insert(rows, n, sum, pos, x);
    if header::room(s) < p.rows(n) {
        return Err(Refusal::Room);
    }
    write_plan(s, n, p);
    Ok(())
}

// What refuses it, but for the room.
pub fn first_code(s: &[u8], n: usize, units: usize, pos: u32, x: FugueSpan) -> Result<(), Refusal>
    requires { Asked n units x s.now }
    ensures { code_of result ≡ insert_first (rows n s.now) pos x }
{
    let list = list::rows(s, n);
    if x.id.peer == UNKNOWN_PEER {
        return Err(Refusal::Id);
    }
    if holds(list, x) {
        return Err(Refusal::IdTaken);
    }
    if visible(list) < pos as usize {
        return Err(Refusal::Range);
    }
    if UNITS < units + len_of(x) {
        return Err(Refusal::Room);
    }
    Ok(())
}

// Where the room that counts ends: only what stands before it is lent to be written.
pub fn room_end(s: &[u8]) -> usize
    ensures { result ≡ 72 + room s.now * 72 }
{
    72 + header::room(s) * 72
}

// A plan for the rows carried out, and their number set.
pub fn write_plan(s: &mut [u8], n: usize, p: Plan)
    requires { Writable p n s.old }
    ensures { WrittenIn (planned p (rows n (drop 72 s.old))) s.old s.new }
{
    let end = room_end(s);
    perform(&mut s[72..end], n, p);
    header::set_count(s, p.rows(n) as u64)
}

// Drops every unit's diff_status.
pub fn clear_diff_status(s: &mut [u8]) -> Result<(), Refusal>
    ensures { EditedIn (state_code s.old) (join (clear_units (expand (spans_of s.old)))) (code_of result) s.old s.new }
{
    if !check(s) {
        return Err(Refusal::Store);
    }
    let n = header::count(s) as usize;
    let end = room_end(s);
    let k = clear_rows(&mut s[72..end], n);
    header::set_count(s, k as u64);
    Ok(())
}
