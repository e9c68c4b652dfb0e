// The openings of a history: empty, or with a placeholder. All refusals are decided before the first write; the targets are not written.
ghost use Rattle.span.specs.Refusal.{code_of};
ghost use Rattle.tracker.specs.Opens.{open_number, open_with_number, Opened};

use crate::row::put_header;
use span::refusal::Refusal;
use store::header;
use store::limits::{EDITS, UNITS};

// The bytes of the edits: a header and 2,000 rows.
pub const EDIT_BYTES: usize = 64 + 256 * EDITS;

// Opens an empty history.
pub fn open(s: &mut [u8], t: &[u8], e: &mut [u8]) -> Result<(), Refusal>
    ensures { Opened (open_number s.old e.old) 0 (code_of result) s.old t.now e.old s.new e.new }
{
    if e.len() < EDIT_BYTES {
        return Err(Refusal::Output);
    }
    rope::state::open(s)?;
    put_header(e, 0, 0);
    Ok(())
}

// Opens a history with a placeholder of n units.
pub fn open_with(s: &mut [u8], t: &[u8], e: &mut [u8], n: u32) -> Result<(), Refusal>
    ensures { Opened (open_with_number n s.old e.old) n (code_of result) s.old t.now e.old s.new e.new }
{
    if n == 0 {
        return Err(Refusal::Chunk);
    }
    if UNITS < n as usize || header::room(s) == 0 {
        return Err(Refusal::Room);
    }
    if e.len() < EDIT_BYTES {
        return Err(Refusal::Output);
    }
    rope::state::open_with(s, n)?;
    put_header(e, 0, u64::from(n));
    Ok(())
}
