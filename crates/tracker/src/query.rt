// The questions that a history answers: its visible length, and what stands at a visible position.
ghost use Rattle.std.specs.Prelude.{◌≡◌};
ghost use Rattle.tracker.specs.Asks.{len_asked, real_asked};

use crate::check::check;
use rope::query::real_at;
use rope::seek::visible;
use span::ids::Id;
use span::refusal::Refusal;
use store::header;
use store::list::rows;

pub fn visible_len(s: &[u8], t: &[u8], e: &[u8]) -> Result<usize, Refusal>
    ensures { result ≡ len_asked s.now t.now e.now }
{
    if !check(s, t, e) {
        return Err(Refusal::Store);
    }
    let n = header::count(s) as usize;
    let list = rows(&s[72..], n);
    Ok(visible(list))
}

pub fn active_real_span_at(
    s: &[u8],
    t: &[u8],
    e: &[u8],
    pos: u32,
) -> Result<Option<(Id, u32)>, Refusal>
    ensures { result ≡ real_asked s.now t.now e.now pos }
{
    if !check(s, t, e) {
        return Err(Refusal::Store);
    }
    let n = header::count(s) as usize;
    let list = rows(&s[72..], n);
    Ok(real_at(list, pos))
}
