// What a well formed list is (refusal 15), part by part: the spans and their joins, the units, the ids, the origins.
ghost use Rattle.std.specs.Prelude.{◌≡◌, ◌&&◌, [], ◌*◌, ◌≤◌, length, map, sum};
ghost use Rattle.span.specs.Span.{len_span};
ghost use Rattle.span.specs.Units.{expand};
ghost use Rattle.store.specs.Row.{rows};
ghost use Rattle.store.specs.Listed.{spans};
ghost use Rattle.rope.specs.Spans.{apart_rows, AllOk};
ghost use Rattle.units.specs.Store.{touching, joined_rows, named, origins_named, well_formed};

use crate::find::{has, holds};
use crate::order::{order, origins_sorted};
use span::ids::Id;
use span::span::FugueSpan;
use store::limits::UNITS;
use store::list::{self, Row, span_of};

// Whether no id stands twice in the list (of refusal 15).
#[tactic(auto, using(crate::proofs::Readers::taken), unfolding(crate::specs::Spans::apart_rows))]
pub fn distinct(rows: &[Row]) -> bool
    ensures { result ≡ apart_rows [] (spans rows.now) }
{
    for (i, row) in rows.iter().enumerate() {
        if holds(&rows[..i], span_of(row)) {
            return false;
        }
    }
    true
}

// Whether a span joins the first of the rows behind it.
#[tactic(auto, unfolding(units::specs::Store::touching))]
pub fn touches(row: FugueSpan, behind: &[Row]) -> bool
    ensures { result ≡ touching row (spans behind.now) }
{
    behind
        .first()
        .is_some_and(|next| row.can_merge(span_of(next)))
}

// Whether each span is well formed and no two neighbours join (of refusal 15).
#[tactic(auto, using(crate::proofs::Checks::code_ok, crate::proofs::Checks::code_err), unfolding(units::specs::Store::joined_rows))]
pub fn joined(rows: &[Row]) -> bool
    ensures { result ≡ joined_rows (spans rows.now) }
{
    for (i, row) in rows.iter().enumerate() {
        let row = span_of(row);
        if row.check().is_err() || touches(row, &rows[i + 1..]) {
            return false;
        }
    }
    true
}

// The number of units, span by span.
fn lens(rows: &[Row]) -> usize
    requires { length rows.now ≤ 65536 }
    ensures { result ≡ sum (map len_span (spans rows.now)) }
{
    rows.iter().map(|row| span_of(row).rle_len() as usize).sum()
}

// The number of units.
#[tactic(auto, using(crate::proofs::Readers::units_sum))]
pub fn units(rows: &[Row]) -> usize
    requires { length rows.now ≤ 65536 }
    ensures { result ≡ length (expand (spans rows.now)) }
{
    lens(rows)
}

// Whether an origin is none or names a unit of the list.
#[tactic(auto, unfolding(units::specs::Store::named))]
pub fn is_named(rows: &[Row], o: Option<Id>) -> bool
    requires { AllOk (spans rows.now) }
    ensures { result ≡ named o (expand (spans rows.now)) }
{
    o.is_none() || has(rows, o)
}

// Whether every origin is.
#[tactic(auto, unfolding(units::specs::Store::origins_named))]
pub fn origins(rows: &[Row]) -> bool
    requires { AllOk (spans rows.now) }
    ensures { result ≡ origins_named (spans rows.now) (expand (spans rows.now)) }
{
    for row in rows {
        let row = span_of(row);
        if !is_named(rows, row.origin_left) || !is_named(rows, row.origin_right) {
            return false;
        }
    }
    true
}

// No id twice and every origin named, plain: each id and each origin is looked up among all rows.
fn plain(rows: &[Row]) -> bool
    requires { AllOk (spans rows.now) }
    ensures { result ≡ (apart_rows [] (spans rows.now) && origins_named (spans rows.now) (expand (spans rows.now))) }
{
    distinct(rows) && origins(rows)
}

// The same by the order of the ids, in n log n.
#[tactic(auto, using(crate::proofs::Orders::sorted_apart))]
fn ordered(s: &[u8], n: usize) -> bool
    requires { (n * 72 ≤ length s.now) × AllOk (rows n s.now) × (n ≤ 65536) }
    ensures { result ≡ (apart_rows [] (rows n s.now) && origins_named (rows n s.now) (expand (rows n s.now))) }
{
    let mut idx = [0u16; 65536];
    order(s, n, &mut idx) && origins_sorted(s, n, &idx)
}

// Whether n rows are a well formed list. A short list is asked plainly.
#[tactic(auto, using(crate::proofs::WellFormed::form_1, crate::proofs::WellFormed::form_2, crate::proofs::WellFormed::form_3, crate::proofs::WellFormed::rows_ok))]
pub fn well_formed(s: &[u8], n: usize) -> bool
    requires { (n * 72 ≤ length s.now) × (n ≤ 65536) }
    ensures { result ≡ well_formed (rows n s.now) }
{
    let rows = list::rows(s, n);
    if !joined(rows) || UNITS < units(rows) {
        return false;
    }
    if n < 128 { plain(rows) } else { ordered(s, n) }
}
