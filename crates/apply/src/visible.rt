// The visible units of a store as items: the list that a delta is applied to.
ghost use Rattle.std.specs.Prelude.{◌≡◌, ◌+◌, ◌*◌, ◌≤◌, length};
ghost use Rattle.words.specs.Le.{put};
ghost use Rattle.span.specs.Span.{span_code, active_len};
ghost use Rattle.span.specs.Units.{units_of};
ghost use Rattle.store.specs.Row.{rows};
ghost use Rattle.units.specs.Store.{spans_of};
ghost use Rattle.rope.specs.Spans.{Stored};
ghost use Rattle.apply.specs.Apply.{items};
ghost use Rattle.apply.specs.Items.{items_bytes};
ghost use Rattle.apply.specs.Called.{Called, shown_items, shown_code, visible_code};

use crate::item::{ITEM_BYTES, put_units};
use rope::seek::{active_of, visible};
use rope::state::check;
use span::refusal::Refusal;
use span::span::FugueSpan;
use store::header;

// The visible units of a span, from a row of the output on. The rows are well formed, and the room was asked before the first write.
#[tactic(auto, using(crate::proofs::Shown::row_cases))]
fn put_shown(out: &mut [u8], row: usize, span: FugueSpan)
    requires { (span_code span ≡ 0) × ((row + active_len span) * 24 ≤ length out.old) }
    ensures { out.new ≡ put (row * 24) (items_bytes (items (units_of span))) out.old }
{
    if span.is_activated() {
        put_units(out, row, span);
    }
}

// The visible units of n rows, from the first row of the output on. Asked only where they fit.
#[tactic(auto, using(crate::proofs::Shown::showing_steps))]
fn write_shown(s: &[u8], n: usize, out: &mut [u8])
    requires { Stored n s.now × (length (shown_items (rows n s.now)) * 24 ≤ length out.old) }
    ensures { out.new ≡ put 0 (items_bytes (shown_items (rows n s.now))) out.old }
{
    let mut row = 0;
    for i in 0..n {
        let span = store::get_row(s, i);
        put_shown(out, row, span);
        row += active_of(span);
    }
}

// visible_items of the rows. The entry has checked that they are a well formed list.
#[tactic(auto, using(crate::proofs::Shown::shown_fits))]
fn visible_rows(s: &[u8], n: usize, out: &mut [u8]) -> Result<usize, Refusal>
    requires { Stored n s.now }
    ensures { Called (shown_code (rows n s.now) out.old) (shown_items (rows n s.now)) out.old result out.new }
{
    let list = store::list::rows(s, n);
    let many = visible(list);
    if out.len() / ITEM_BYTES < many {
        return Err(Refusal::Output);
    }
    write_shown(s, n, out);
    Ok(many)
}

// The visible units of a store, in list order, written to the output's front; the answer is how many there are.
#[tactic(auto, using(rope::proofs::States::state_of))]
pub fn visible_items(s: &[u8], out: &mut [u8]) -> Result<usize, Refusal>
    ensures { Called (visible_code s.now out.old) (shown_items (spans_of s.now)) out.old result out.new }
{
    if !check(s) {
        return Err(Refusal::Store);
    }
    let n = header::count(s) as usize;
    visible_rows(&s[72..], n, out)
}
