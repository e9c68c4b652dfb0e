// The delete of visible units.
ghost use Rattle.std.specs.Prelude.{◌≡◌, true, ◌≤◌, ◌<◌, drop};
ghost use Rattle.span.specs.Refusal.{code_of};
ghost use Rattle.span.specs.Units.{expand, join};
ghost use Rattle.store.specs.Row.{rows};
ghost use Rattle.units.specs.Change.{delete_units, pieces};
ghost use Rattle.units.specs.Store.{room, spans_of, is_state};
ghost use Rattle.units.specs.Codes.{delete_code};
ghost use Rattle.rope.specs.Spans.{Stored};
ghost use Rattle.rope.specs.Applies.{Deletes};
ghost use Rattle.rope.specs.Edits.{WrittenIn};
ghost use Rattle.rope.specs.Deletions.{out_rows, delete_number, delete_list, delete_rest, Deleted, Removes};

use crate::apply::{apply, count};
use crate::change::{Change, Delete};
use crate::edit::room_end;
use crate::report::{removed_len, report};
use crate::seek::visible;
use crate::state::check;
use span::ids::{Id, real_has_room};
use span::refusal::Refusal;
use store::header;
use store::list::rows;

// The delete of len visible units from a position on, in a well formed list with room for what it becomes. The answer is the number
// of rows.
pub fn delete_rows(s: &mut [u8], n: usize, at: u32, len: u32, start: Id) -> usize
    requires { Deletes n at len start s.old }
    ensures { rows result s.new ≡ join (delete_units at len start (expand (rows n s.old))) }
{
    apply(s, n, Change::Delete(Delete { at, len, start }))
}

// What refuses the delete of some units in a well formed list: `most` is the room for rows, `places` that of the output.
pub fn refuse_delete(
    s: &[u8],
    n: usize,
    d: Delete,
    most: usize,
    places: usize,
    reversed: bool,
) -> Result<(), Refusal>
    requires { Stored n s.now × (n ≤ 65536) }
    ensures { code_of result ≡ delete_rest most places (rows n s.now) d reversed }
{
    if !real_has_room(Some(d.start), d.len) {
        return Err(Refusal::Id);
    }
    let list = rows(s, n);
    if visible(list) < d.at as usize + d.len as usize {
        return Err(Refusal::Range);
    }
    if most < count(s, n, Change::Delete(d)) {
        return Err(Refusal::Room);
    }
    if places < removed_len(s, n, d, reversed) {
        return Err(Refusal::Output);
    }
    Ok(())
}

// The delete carried out in the rows of a store, and their number set.
pub fn write_delete(s: &mut [u8], n: usize, d: Delete)
    requires { Removes d n s.old }
    ensures { WrittenIn (join (delete_units d.at d.len d.start (expand (rows n (drop 72 s.old))))) s.old s.new }
{
    let end = room_end(s);
    let k = delete_rows(&mut s[72..end], n, d.at, d.len, d.start);
    header::set_count(s, k as u64)
}

// Deletes len visible units from a position on. The i-th gets the real id start + i if it has none. What they were is written to the
// output: a row for each span touched, or single units, the last first.
pub fn delete(
    s: &mut [u8],
    out: &mut [u8],
    pos: u32,
    len: u32,
    start: Id,
    reversed: bool,
) -> Result<usize, Refusal>
    ensures { Deleted (delete_number s.old out.old pos len start reversed) (delete_list s.old pos len start) (pieces (spans_of s.old) pos len reversed) result s.old out.old s.new out.new }
{
    if !check(s) {
        return Err(Refusal::Store);
    }
    if len == 0 {
        return Ok(0);
    }
    let d = Delete {
        at: pos,
        len,
        start,
    };
    delete_some(s, out, d, reversed)
}

// The same, of some units in a well formed store.
pub fn delete_some(
    s: &mut [u8],
    out: &mut [u8],
    d: Delete,
    reversed: bool,
) -> Result<usize, Refusal>
    requires { (is_state s.old ≡ true) × (0 < d.len) }
    ensures { Deleted (delete_code (room s.old) (out_rows out.old) (spans_of s.old) d.at d.len d.start reversed) (delete_list s.old d.at d.len d.start) (pieces (spans_of s.old) d.at d.len reversed) result s.old out.old s.new out.new }
{
    let n = header::count(s) as usize;
    let most = header::room(s);
    let rows = &s[72..];
    refuse_delete(rows, n, d, most, out.len() / 72, reversed)?;
    let k = report(rows, n, out, d, reversed);
    write_delete(s, n, d);
    Ok(k)
}
