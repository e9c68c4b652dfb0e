// Visible positions: the visible length, and the row and offset of a position.
ghost use Rattle.std.specs.Prelude.{◌≡◌, ◌*◌, ◌≤◌, ◌<◌, length, map, sum};
ghost use Rattle.span.specs.Span.{active_len};
ghost use Rattle.span.specs.Units.{expand};
ghost use Rattle.store.specs.Listed.{spans};
ghost use Rattle.units.specs.Place.{shown};
ghost use Rattle.rope.specs.Spans.{seek_in};

use span::span::FugueSpan;
use store::list::{Row, span_of};

// A place in the list: after so many units of a row.
#[derive(Clone, Copy)]
pub struct Cursor {
    pub row: usize,
    pub offset: u32,
}

// The cursor of a visible position: right after the visible unit before it, at the start for 0.
#[tactic(auto, unfolding(crate::specs::Spans::seek_in))]
pub fn seek(rows: &[Row], pos: u32) -> Cursor
    ensures { result ≡ seek_in (spans rows.now) pos 0 }
{
    let mut left = pos;
    for (i, row) in rows.iter().enumerate() {
        let len = span_of(row).activated_len();
        if left <= len {
            return Cursor {
                row: i,
                offset: left,
            };
        }
        left -= len;
    }
    Cursor {
        row: rows.len(),
        offset: 0,
    }
}

// The visible length, span by span.
fn visible_lens(rows: &[Row]) -> usize
    requires { length rows.now ≤ 65536 }
    ensures { result ≡ sum (map active_len (spans rows.now)) }
{
    rows.iter()
        .map(|row| span_of(row).activated_len() as usize)
        .sum()
}

// The visible length. A list has few enough rows to count.
#[tactic(auto, using(crate::proofs::Readers::shown_sum))]
pub fn visible(rows: &[Row]) -> usize
    requires { length rows.now ≤ 65536 }
    ensures { result ≡ shown (expand (spans rows.now)) }
{
    visible_lens(rows)
}

pub fn active_of(row: FugueSpan) -> usize
    ensures { (result ≡ active_len row) × (result < 4294967296) }
{
    row.activated_len() as usize
}
