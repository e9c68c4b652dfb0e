// The fields and lines of an answer, put into a lent buffer; a field has a blank in front. As in text::puts, the answer is the place after it, or past the end.
ghost use Rattle.text.specs.Puts.{Puts};
ghost use Rattle.script.specs.Print.{peer_text, number_text, id_text, opt_id_text, future_text, status_text, opt_status_text, named_text, chunk_text, span_text, head_line, unit_line, span_line, item_line, at_line};

use span::chunk::{AnchorType, RichtextChunk, RichtextChunkValue};
use span::ids::{Id, UNKNOWN_PEER};
use span::span::FugueSpan;
use span::status::Status;
use text::puts::{put, put_decimal, put_signed};

// ---- Fields

#[tactic(auto, unfolding(crate::specs::Print::peer_text))]
fn peer(out: &mut [u8], at: usize, p: u64) -> usize
    ensures { Puts at (peer_text p) out.old result out.new }
{
    if p == UNKNOWN_PEER {
        put(out, at, b"U")
    } else {
        put_decimal(out, at, p)
    }
}

#[tactic(auto, using(text::proofs::PutsLaws::puts), unfolding(crate::specs::Print::number_text))]
pub fn number(out: &mut [u8], at: usize, n: u64) -> usize
    ensures { Puts at (number_text n) out.old result out.new }
{
    let at = put(out, at, b" ");
    put_decimal(out, at, n)
}

// PEER.COUNTER
#[tactic(auto, using(text::proofs::PutsLaws::puts), unfolding(crate::specs::Print::id_text))]
pub fn id(out: &mut [u8], at: usize, i: Id) -> usize
    ensures { Puts at (id_text i) out.old result out.new }
{
    let at = put(out, at, b" ");
    let at = peer(out, at, i.peer);
    let at = put(out, at, b".");
    put_signed(out, at, i.counter)
}

#[tactic(auto, unfolding(crate::specs::Print::opt_id_text))]
pub fn opt_id(out: &mut [u8], at: usize, o: Option<Id>) -> usize
    ensures { Puts at (opt_id_text o) out.old result out.new }
{
    match o {
        None => put(out, at, b" -"),
        Some(i) => id(out, at, i),
    }
}

fn future(out: &mut [u8], at: usize, f: bool) -> usize
    ensures { Puts at (future_text f) out.old result out.new }
{
    if f {
        put(out, at, b" future:")
    } else {
        put(out, at, b" now:")
    }
}

// now:COUNT or future:COUNT
pub fn status(out: &mut [u8], at: usize, s: Status) -> usize
    ensures { Puts at (status_text s) out.old result out.new }
{
    let at = future(out, at, s.future);
    put_signed(out, at, i32::from(s.delete_times))
}

#[tactic(auto, unfolding(crate::specs::Print::opt_status_text))]
pub fn opt_status(out: &mut [u8], at: usize, d: Option<Status>) -> usize
    ensures { Puts at (opt_status_text d) out.old result out.new }
{
    match d {
        None => put(out, at, b" -"),
        Some(s) => status(out, at, s),
    }
}

// A name and a number.
#[tactic(auto, using(text::proofs::PutsLaws::puts), unfolding(crate::specs::Print::named_text))]
fn named(out: &mut [u8], at: usize, name: &[u8], n: u64) -> usize
    ensures { Puts at (named_text name.now n) out.old result out.new }
{
    let at = put(out, at, name);
    number(out, at, n)
}

// text A B, unknown N, start I, end I or move
#[tactic(auto, using(text::proofs::PutsLaws::puts), unfolding(crate::specs::Print::value_text))]
pub fn chunk(out: &mut [u8], at: usize, c: RichtextChunk) -> usize
    ensures { Puts at (chunk_text c) out.old result out.new }
{
    match c.value() {
        RichtextChunkValue::Text { start, end } => {
            let at = named(out, at, b" text", u64::from(start));
            number(out, at, u64::from(end))
        }
        RichtextChunkValue::StyleAnchor { id, anchor_type } => match anchor_type {
            AnchorType::Start => named(out, at, b" start", u64::from(id)),
            AnchorType::End => named(out, at, b" end", u64::from(id)),
        },
        RichtextChunkValue::Unknown(n) => named(out, at, b" unknown", u64::from(n)),
        RichtextChunkValue::MoveAnchor => put(out, at, b" move"),
    }
}

// PEER.COUNTER LAMPORT REAL STATUS DIFF LEFT RIGHT CHUNK
pub fn span(out: &mut [u8], at: usize, x: FugueSpan) -> usize
    ensures { Puts at (span_text x) out.old result out.new }
{
    let at = id(out, at, x.id);
    let at = number(out, at, u64::from(x.lamport));
    let at = opt_id(out, at, x.real_id);
    let at = status(out, at, x.status);
    let at = opt_status(out, at, x.diff_status);
    let at = opt_id(out, at, x.origin_left);
    let at = opt_id(out, at, x.origin_right);
    chunk(out, at, x.content)
}

// ---- Lines

// A name with its number, as `units N` and `no K`.
#[tactic(auto, using(text::proofs::PutsLaws::puts), unfolding(crate::specs::Print::head_line))]
pub fn head(out: &mut [u8], at: usize, name: &[u8], n: u64) -> usize
    ensures { Puts at (head_line name.now n) out.old result out.new }
{
    let at = named(out, at, name, n);
    put(out, at, b"\n")
}

// unit UNIT
#[tactic(auto, using(text::proofs::PutsLaws::puts), unfolding(crate::specs::Print::unit_line))]
pub fn unit_line(out: &mut [u8], at: usize, x: FugueSpan) -> usize
    ensures { Puts at (unit_line x) out.old result out.new }
{
    let at = put(out, at, b"unit");
    let at = span(out, at, x);
    put(out, at, b"\n")
}

// span LEN SPAN, and piece LEN SPAN
#[tactic(auto, using(text::proofs::PutsLaws::puts), unfolding(crate::specs::Print::span_line))]
pub fn span_line(out: &mut [u8], at: usize, name: &[u8], len: u32, x: FugueSpan) -> usize
    ensures { Puts at (span_line name.now len x) out.old result out.new }
{
    let at = named(out, at, name, u64::from(len));
    let at = span(out, at, x);
    put(out, at, b"\n")
}

// item ID CHUNK
#[tactic(auto, using(text::proofs::PutsLaws::puts), unfolding(crate::specs::Print::item_line))]
pub fn item_line(out: &mut [u8], at: usize, i: Id, c: RichtextChunk) -> usize
    ensures { Puts at (item_line i c) out.old result out.new }
{
    let at = put(out, at, b"item");
    let at = id(out, at, i);
    let at = chunk(out, at, c);
    put(out, at, b"\n")
}

// at ID LEFT
#[tactic(auto, using(text::proofs::PutsLaws::puts), unfolding(crate::specs::Print::at_line))]
pub fn at_line(out: &mut [u8], at: usize, i: Id, left: u32) -> usize
    ensures { Puts at (at_line i left) out.old result out.new }
{
    let at = put(out, at, b"at");
    let at = id(out, at, i);
    let at = number(out, at, u64::from(left));
    put(out, at, b"\n")
}
