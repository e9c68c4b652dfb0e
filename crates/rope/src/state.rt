// A store in lent bytes: opening one, and the check that every entry asks before all else (refusal 15).
ghost use Rattle.std.specs.Prelude.{◌≡◌};
ghost use Rattle.span.specs.Refusal.{code_of};
ghost use Rattle.units.specs.Query.{placeholder};
ghost use Rattle.units.specs.Store.{is_state};
ghost use Rattle.rope.specs.Entries.{open_code, open_bytes, open_with_code, open_with_bytes};

use crate::check::well_formed;
use span::chunk::RichtextChunk;
use span::ids::{Id, UNKNOWN_PEER};
use span::refusal::Refusal;
use span::span::FugueSpan;
use span::status::Status;
use store::header;
use store::limits::UNITS;

// Whether the bytes are a well formed store.
#[tactic(auto, using(crate::proofs::States::part_spans, crate::proofs::States::part_length, crate::proofs::States::state_short, crate::proofs::States::state_over, crate::proofs::States::state_rows, crate::proofs::States::room_most, crate::proofs::States::room_long))]
pub fn check(s: &[u8]) -> bool
    ensures { result ≡ is_state s.now }
{
    if s.len() < 72 {
        return false;
    }
    let n = header::count(s);
    let most = header::room(s);
    if (most as u64) < n {
        return false;
    }
    well_formed(&s[72..], n as usize)
}

// Opens an empty store.
pub fn open(s: &mut [u8]) -> Result<(), Refusal>
    ensures { (code_of result ≡ open_code s.old) × (s.new ≡ open_bytes s.old) }
{
    if s.len() < 72 {
        return Err(Refusal::Output);
    }
    header::put_header(s, 0);
    Ok(())
}

// The placeholder: n unknown units of the unknown peer, in every version.
#[tactic(auto, unfolding(units::specs::Query::placeholder, span::specs::Span::new_span, span::specs::Span::real_new))]
fn placeholder(n: u32) -> FugueSpan
    ensures { result ≡ placeholder n }
{
    FugueSpan {
        id: Id {
            peer: UNKNOWN_PEER,
            counter: 0,
        },
        lamport: 0,
        real_id: None,
        status: Status::default(),
        diff_status: None,
        origin_left: None,
        origin_right: None,
        content: RichtextChunk {
            start: RichtextChunk::UNKNOWN,
            end: n,
        },
    }
}

// Opens a store with a placeholder of n units.
pub fn open_with(s: &mut [u8], n: u32) -> Result<(), Refusal>
    ensures { (code_of result ≡ open_with_code n s.old) × (s.new ≡ open_with_bytes n s.old) }
{
    if n == 0 {
        return Err(Refusal::Chunk);
    }
    if UNITS < n as usize || header::room(s) == 0 {
        return Err(Refusal::Room);
    }
    header::put_header(s, 1);
    store::put_row(s, 1, placeholder(n));
    Ok(())
}
