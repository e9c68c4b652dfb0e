// The questions that a store answers: its visible length, and what stands at a visible position.
ghost use Rattle.std.specs.Prelude.{◌≡◌};
ghost use Rattle.store.specs.Listed.{spans};
ghost use Rattle.rope.specs.Spans.{AllOk};
ghost use Rattle.units.specs.Query.{real_span_at};
ghost use Rattle.rope.specs.Entries.{len_answer, real_said, real_answer};

use crate::seek::visible;
use crate::state::check;
use span::ids::Id;
use span::refusal::Refusal;
use store::header;
use store::list::{Row, rows, span_of};

// The visible length of a store.
pub fn visible_len(s: &[u8]) -> Result<usize, Refusal>
    ensures { result ≡ len_answer s.now }
{
    if !check(s) {
        return Err(Refusal::Store);
    }
    let n = header::count(s) as usize;
    let list = rows(&s[72..], n);
    Ok(visible(list))
}

// The real id at a visible position of the rows and the units left in its span; none from the visible length on.
pub fn real_at(rows: &[Row], pos: u32) -> Option<(Id, u32)>
    requires { AllOk (spans rows.now) }
    ensures { result ≡ real_said (real_span_at (spans rows.now) pos) }
{
    let mut left = pos;
    for row in rows {
        let row = span_of(row);
        let len = row.activated_len();
        if left < len {
            let rest = row.piece(left, len);
            return Some((rest.real_id(), rest.rle_len()));
        }
        left -= len;
    }
    None
}

// The same of a store.
pub fn active_real_span_at(s: &[u8], pos: u32) -> Result<Option<(Id, u32)>, Refusal>
    ensures { result ≡ real_answer s.now pos }
{
    if !check(s) {
        return Err(Refusal::Store);
    }
    let n = header::count(s) as usize;
    let list = rows(&s[72..], n);
    Ok(real_at(list, pos))
}
