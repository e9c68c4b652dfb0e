// The update of an id range.
ghost use Rattle.std.specs.Prelude.{◌≡◌, true, ◌*◌, ◌≤◌, ◌<◌, pos, ◌+ℤ◌, length, drop};
ghost use Rattle.span.specs.Refusal.{code_of};
ghost use Rattle.span.specs.Span.{span_code};
ghost use Rattle.span.specs.Status.{in_i16};
ghost use Rattle.span.specs.Units.{units_of, expand, join};
ghost use Rattle.store.specs.Row.{rows};
ghost use Rattle.store.specs.Listed.{spans};
ghost use Rattle.units.specs.Change.{base_of, in_range, update_units};
ghost use Rattle.units.specs.Codes.{holds_all, counts_fit, update_code};
ghost use Rattle.units.specs.Lists.{keep_if};
ghost use Rattle.rope.specs.Spans.{AllOk, Stored};
ghost use Rattle.rope.specs.Applies.{Updates};
ghost use Rattle.units.specs.Store.{room, spans_of, is_state};
ghost use Rattle.rope.specs.Edits.{WrittenIn, EditedIn};
ghost use Rattle.rope.specs.Updated.{update_number, update_list, updated_units, update_rest, Rewrites};

use crate::apply::apply;
use crate::change::{Change, Update};
use crate::edit::room_end;
use crate::exact::rows_after;
use crate::state::check;
use span::refusal::Refusal;
use span::span::FugueSpan;
use span::status::counter_of;
use store::header;
use store::list::{self, Row, span_of};
use units::change::SetFuture;

// The update of a range of counters of a peer, in a well formed list with room for what it becomes, which the entry asked. The answer is the
// number of rows.
pub fn update_rows(s: &mut [u8], n: usize, u: Update) -> usize
    requires { Updates n u s.old }
    ensures { rows result s.new ≡ join (update_units u.peer (pos u.from) (pos u.to) u.set u.change u.diff (expand (rows n s.old))) }
{
    apply(s, n, Change::Update(u))
}

// Whether an update keeps the count of a span within i16.
#[tactic(auto, unfolding(span::specs::Status::times_of))]
pub fn base_fits(u: Update, row: FugueSpan) -> bool
    ensures { result ≡ in_i16 ((base_of u.diff row).delete_times +ℤ u.change) }
{
    u.base(row).changed(u.change).is_ok()
}

// The same of the units of a row that it changes. (The row is one of a well formed list, which the entry asked.)
#[tactic(auto, using(crate::proofs::Updating::row_some, crate::proofs::Updating::row_empty))]
pub fn row_fits(u: Update, row: FugueSpan) -> bool
    requires { (span_code row ≡ 0) × (u.from ≤ u.to) }
    ensures { result ≡ counts_fit u.peer (pos u.from) (pos u.to) u.change u.diff (units_of row) }
{
    let part = u.cut(row);
    part.to <= part.from || base_fits(u, row)
}

// Whether an update keeps every count within i16 (refusal 11), in a well formed list, which the entry asked.
pub fn counts_fit(rows: &[Row], u: Update) -> bool
    requires { AllOk (spans rows.now) × (u.from ≤ u.to) }
    ensures { result ≡ counts_fit u.peer (pos u.from) (pos u.to) u.change u.diff (expand (spans rows.now)) }
{
    for row in rows {
        if !row_fits(u, span_of(row)) {
            return false;
        }
    }
    true
}

// How many units of a row an update changes. (The row is one of a well formed list, which the entry asked.)
#[tactic(auto, using(crate::proofs::Held::inside_row))]
pub fn part_len(u: Update, row: FugueSpan) -> usize
    requires { (span_code row ≡ 0) × (u.from ≤ u.to) }
    ensures { (result ≡ length (keep_if (in_range u.peer (pos u.from) (pos u.to)) (units_of row))) × (result < 4294967296) }
{
    let part = u.cut(row);
    part.to.saturating_sub(part.from) as usize
}

// Whether every id of an update is in a well formed list, which the entry asked (refusal 6): no id is there twice, so that as many units as
// ids are all of them.
pub fn held_in(s: &[u8], n: usize, u: Update) -> bool
    requires { (n * 72 ≤ length s.now) × AllOk (rows n s.now) × (n ≤ 65536) × (u.from ≤ u.to) }
    ensures { result ≡ holds_all u.peer (pos u.from) (pos u.to) (expand (rows n s.now)) }
{
    let mut sum = 0;
    for i in 0..n {
        sum += part_len(u, store::get_row(s, i));
    }
    sum == (u.to - u.from) as usize
}

// What refuses an update of some counters, in a well formed list, which the entry asked, with room for `most` rows. All is decided before
// the first write.
pub fn refuse_update(s: &[u8], n: usize, u: Update, most: usize) -> Result<(), Refusal>
    requires { Stored n s.now × (n ≤ 65536) × (u.from ≤ u.to) }
    ensures { code_of result ≡ update_rest most (rows n s.now) u }
{
    if !held_in(s, n, u) {
        return Err(Refusal::Version);
    }
    if most < rows_after(s, n, u) {
        return Err(Refusal::Room);
    }
    let list = list::rows(s, n);
    if !counts_fit(list, u) {
        return Err(Refusal::Count);
    }
    Ok(())
}

// The update carried out in the rows of a store, and their number set. (That nothing refuses it was asked.)
pub fn write_update(s: &mut [u8], n: usize, u: Update)
    requires { Rewrites u n s.old }
    ensures { WrittenIn (join (updated_units u (expand (rows n (drop 72 s.old))))) s.old s.new }
{
    let end = room_end(s);
    let k = update_rows(&mut s[72..end], n, u);
    header::set_count(s, k as u64)
}

// The update of some counters that are not below zero, in a well formed store, which the entry asked.
pub fn update_some(s: &mut [u8], u: Update) -> Result<(), Refusal>
    requires { (is_state s.old ≡ true) × (u.from < u.to) }
    ensures { EditedIn (update_code (room s.old) (spans_of s.old) u.peer (pos u.from) (pos u.to) u.set u.change u.diff) (update_list s.old u.peer (pos u.from) (pos u.to) u.set u.change u.diff) (code_of result) s.old s.new }
{
    let n = header::count(s) as usize;
    let most = header::room(s);
    refuse_update(&s[72..], n, u, most)?;
    write_update(s, n, u);
    Ok(())
}

// Updates the counters from..to of a peer: future is set as asked and `change` is added to the count, of the status or of the diff_status.
// No counters are no change.
pub fn update(
    s: &mut [u8],
    peer: u64,
    from: i32,
    to: i32,
    set: SetFuture,
    change: i16,
    diff: bool,
) -> Result<(), Refusal>
    ensures { EditedIn (update_number s.old peer from to set change diff) (update_list s.old peer from to set change diff) (code_of result) s.old s.new }
{
    if !check(s) {
        return Err(Refusal::Store);
    }
    if to <= from {
        return Ok(());
    }
    let Some(from) = counter_of(from) else {
        return Err(Refusal::Version);
    };
    let u = Update {
        peer,
        from,
        to: to as u32,
        set,
        change,
        diff,
    };
    update_some(s, u)
}
