// clear_diff_status (000): every unit's diff_status is dropped.
ghost use Rattle.std.specs.Prelude.{◌≡◌, ◌*◌, ◌≤◌, length};
ghost use Rattle.span.specs.Units.{expand, join};
ghost use Rattle.store.specs.Row.{rows};
ghost use Rattle.units.specs.Change.{clear_units};
ghost use Rattle.rope.specs.Spans.{AllOk, clear_span};

use crate::stream::push;
use span::span::FugueSpan;

// A span without its diff_status.
#[tactic(auto, unfolding(crate::specs::Spans::clear_span, units::specs::Change::with_state))]
pub fn cleared(row: FugueSpan) -> FugueSpan
    ensures { result ≡ clear_span row }
{
    FugueSpan {
        diff_status: None,
        ..row
    }
}

// The rows without diff_status, joined again: never more of them. The answer is their number.
pub fn clear_rows(s: &mut [u8], n: usize) -> usize
    requires { (n * 72 ≤ length s.old) × AllOk (rows n s.old) }
    ensures { (rows result s.new ≡ join (clear_units (expand (rows n s.old)))) × (result ≤ n) }
{
    let mut w = 0;
    for i in 0..n {
        let row = store::get_row(s, i);
        w = push(s, w, cleared(row));
    }
    w
}
