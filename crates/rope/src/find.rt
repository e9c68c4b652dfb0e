// Search by id: where in a span an id stands, and which row of the list has it (`find_elem` of 000).
ghost use Rattle.std.specs.Prelude.{◌≡◌};
ghost use Rattle.span.specs.Units.{expand};
ghost use Rattle.store.specs.Listed.{spans};
ghost use Rattle.units.specs.Place.{mem_id};
ghost use Rattle.rope.specs.Spans.{offset_of, covered, find_in, meets_span, holds_any, AllOk};

use span::ids::Id;
use span::span::FugueSpan;
use span::status::counter_of;
use store::list::{Row, span_of};

// Which unit of a span has an id.
#[tactic(auto, unfolding(crate::specs::Spans::offset_of, crate::specs::Spans::gap))]
pub fn offset_of(row: FugueSpan, o: Option<Id>) -> Option<u32>
    ensures { result ≡ offset_of row o }
{
    let id = o?;
    if row.id.peer != id.peer {
        return None;
    }
    let first = counter_of(row.id.counter)?;
    let offset = counter_of(id.counter)?.checked_sub(first)?;
    (offset < row.rle_len()).then_some(offset)
}

// Whether one of a span's units has it.
#[tactic(auto, unfolding(crate::specs::Spans::covered))]
pub fn covers(row: FugueSpan, o: Option<Id>) -> bool
    ensures { result ≡ covered row o }
{
    offset_of(row, o).is_some()
}

// The row and the unit of it that have an id.
#[tactic(auto, unfolding(crate::specs::Spans::find_in))]
pub fn find_elem(rows: &[Row], o: Option<Id>) -> Option<(usize, u32)>
    ensures { result ≡ find_in (spans rows.now) o 0 }
{
    for (i, row) in rows.iter().enumerate() {
        if let Some(offset) = offset_of(span_of(row), o) {
            return Some((i, offset));
        }
    }
    None
}

// Whether an id is one of the list's.
pub fn has(rows: &[Row], o: Option<Id>) -> bool
    requires { AllOk (spans rows.now) }
    ensures { result ≡ mem_id o (expand (spans rows.now)) }
{
    find_elem(rows, o).is_some()
}

// Whether two spans have an id in common: one of them has the other's first.
#[tactic(auto, unfolding(crate::specs::Spans::meets_span))]
pub fn meets(a: FugueSpan, b: FugueSpan) -> bool
    ensures { result ≡ meets_span a b }
{
    covers(a, Some(b.id)) || covers(b, Some(a.id))
}

// Whether one of the ids of x is in the list (refusal 3).
#[tactic(auto, unfolding(crate::specs::Spans::holds_any))]
pub fn holds(rows: &[Row], x: FugueSpan) -> bool
    ensures { result ≡ holds_any (spans rows.now) x }
{
    for row in rows {
        if meets(span_of(row), x) {
            return true;
        }
    }
    false
}
