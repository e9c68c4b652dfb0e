// The span store: spans in rows of 72 bytes of a lent buffer, read, written, inserted and removed.
#![tactic(auto)]

pub mod header;
pub mod limits;
pub mod list;

ghost use Rattle.std.specs.Prelude.{◌≡◌, ◌+◌, ◌-◌, ◌*◌, ◌≤◌, ◌<◌, ◌++◌, ◌∷◌, length, take, drop};
ghost use Rattle.std.specs.Int.{w16, w32};
ghost use Rattle.std.proofs.Common.{SFits};
ghost use Rattle.words.specs.Le.{put};
ghost use Rattle.store.specs.Row.{rows, row_at, words_at, word_bytes, span_of, words_of, id_of, bits32, bits16, status_of, opt_of, maybe_of, peer_of, ctr_of, has_of, has_status, future_of, times_of, low_of, flags_of, Signed, PutRow};

use list::WIDTH;
use span::chunk::RichtextChunk;
use span::ids::Id;
use span::span::FugueSpan;
use span::status::Status;
use words::bytes_at;

// An id by its peer and its counter's bits, two's complement.
pub fn id_of(peer: u64, w: u32) -> Id
    ensures { result ≡ id_of peer w }
{
    Id {
        peer,
        counter: w.cast_signed(),
    }
}

// A counter's bits.
pub fn counter_bits(i: Id) -> u32
    ensures { (result ≡ bits32 i.counter) × SFits w32 i.counter }
{
    i.counter.cast_unsigned()
}

// A status by its delete times' bits.
pub fn status_of(future: bool, w: u16) -> Status
    ensures { result ≡ status_of future w }
{
    Status {
        future,
        delete_times: w.cast_signed(),
    }
}

// The bits of a status' delete times.
pub fn times_bits(s: Status) -> u16
    ensures { (result ≡ bits16 s.delete_times) × SFits w16 s.delete_times }
{
    s.delete_times.cast_unsigned()
}

// What may be missing, from its words and back. What is missing has zeros in its words; a flag tells that it is missing.
pub fn opt_of(has: bool, peer: u64, w: u32) -> Option<Id>
    ensures { result ≡ opt_of has peer w }
{
    has.then_some(id_of(peer, w))
}

pub fn maybe_of(has: bool, future: bool, w: u16) -> Option<Status>
    ensures { result ≡ maybe_of has future w }
{
    has.then_some(status_of(future, w))
}

pub fn peer_of(o: Option<Id>) -> u64
    ensures { result ≡ peer_of o }
{
    o.map_or(0, |id| id.peer)
}

pub fn opt_bits(o: Option<Id>) -> u32
    ensures { (result ≡ bits32 (ctr_of o)) × SFits w32 (ctr_of o) }
{
    o.map_or(0, |id| counter_bits(id))
}

pub fn diff_bits(d: Option<Status>) -> u16
    ensures { (result ≡ bits16 (times_of d)) × SFits w16 (times_of d) }
{
    d.map_or(0, |status| times_bits(status))
}

// A flag, which is the lowest bit of a word.
pub fn low(w: u32) -> bool
    ensures { result ≡ low_of w }
{
    w % 2 == 1
}

// The words of a row: what stands in the bytes, before it means anything. The last four bytes of a row are spare.
#[derive(Clone, Copy, Debug, Default, PartialEq, Eq)]
pub struct Words {
    pub p0: u64,
    pub p1: u64,
    pub p2: u64,
    pub p3: u64,
    pub c0: u32,
    pub c1: u32,
    pub c2: u32,
    pub c3: u32,
    pub c4: u32,
    pub c5: u32,
    pub c6: u32,
    pub c7: u32,
    pub c8: u32,
}

// The words of the row at byte b, and back. The row must lie within the slice: who calls knows how many rows are lent.
pub fn get_words(s: &[u8], b: usize) -> Words
    requires { b + 72 ≤ length s.now }
    ensures { result ≡ words_at s.now b }
{
    Words {
        p0: u64::from_le_bytes(bytes_at(s, b)),
        p1: u64::from_le_bytes(bytes_at(s, b + 8)),
        p2: u64::from_le_bytes(bytes_at(s, b + 16)),
        p3: u64::from_le_bytes(bytes_at(s, b + 24)),
        c0: u32::from_le_bytes(bytes_at(s, b + 32)),
        c1: u32::from_le_bytes(bytes_at(s, b + 36)),
        c2: u32::from_le_bytes(bytes_at(s, b + 40)),
        c3: u32::from_le_bytes(bytes_at(s, b + 44)),
        c4: u32::from_le_bytes(bytes_at(s, b + 48)),
        c5: u32::from_le_bytes(bytes_at(s, b + 52)),
        c6: u32::from_le_bytes(bytes_at(s, b + 56)),
        c7: u32::from_le_bytes(bytes_at(s, b + 60)),
        c8: u32::from_le_bytes(bytes_at(s, b + 64)),
    }
}

pub fn put_words(s: &mut [u8], b: usize, w: Words)
    requires { b + 72 ≤ length s.old }
    ensures { s.new ≡ put b (word_bytes w) s.old }
{
    words::put_all(
        s,
        b,
        [
            w.p0.to_le_bytes(),
            w.p1.to_le_bytes(),
            w.p2.to_le_bytes(),
            w.p3.to_le_bytes(),
        ],
    );
    words::put_all(
        s,
        b + 32,
        [
            w.c0.to_le_bytes(),
            w.c1.to_le_bytes(),
            w.c2.to_le_bytes(),
            w.c3.to_le_bytes(),
            w.c4.to_le_bytes(),
            w.c5.to_le_bytes(),
            w.c6.to_le_bytes(),
            w.c7.to_le_bytes(),
            w.c8.to_le_bytes(),
            [0; 4],
        ],
    );
}

#[tactic(auto, unfolding(crate::specs::Row::span_of))]
pub fn span_of(w: Words) -> FugueSpan
    ensures { result ≡ span_of w }
{
    let future = w.c8;
    let has_diff = future / 2;
    let diff_future = has_diff / 2;
    let has_real = diff_future / 2;
    let has_left = has_real / 2;
    let has_right = has_left / 2;
    FugueSpan {
        id: id_of(w.p0, w.c0),
        lamport: w.c1,
        real_id: opt_of(low(has_real), w.p1, w.c2),
        status: status_of(low(future), (w.c7 % 65536) as u16),
        diff_status: maybe_of(low(has_diff), low(diff_future), (w.c7 / 65536) as u16),
        origin_left: opt_of(low(has_left), w.p2, w.c3),
        origin_right: opt_of(low(has_right), w.p3, w.c4),
        content: RichtextChunk {
            start: w.c5,
            end: w.c6,
        },
    }
}

// The word of flags: the lowest bit is the first.
#[tactic(auto, unfolding(crate::specs::Row::flags_of))]
pub fn flags(a: bool, b: bool, c: bool, d: bool, e: bool, f: bool) -> u32
    ensures { result ≡ flags_of a b c d e f }
{
    u32::from(a)
        + 2 * u32::from(b)
        + 4 * u32::from(c)
        + 8 * u32::from(d)
        + 16 * u32::from(e)
        + 32 * u32::from(f)
}

// The flags of a span: its status, what it may have, and the status that it may have.
pub fn span_flags(x: FugueSpan) -> u32
    ensures { result ≡ flags_of x.status.future (has_status x.diff_status) (future_of x.diff_status) (has_of x.real_id) (has_of x.origin_left) (has_of x.origin_right) }
{
    flags(
        x.status.future,
        x.diff_status.is_some(),
        x.diff_status.is_some_and(|status| status.future),
        x.real_id.is_some(),
        x.origin_left.is_some(),
        x.origin_right.is_some(),
    )
}

#[tactic(auto, unfolding(crate::specs::Row::words_of))]
pub fn words_of(x: FugueSpan) -> Words
    ensures { (result ≡ words_of x) × Signed x }
{
    Words {
        p0: x.id.peer,
        p1: peer_of(x.real_id),
        p2: peer_of(x.origin_left),
        p3: peer_of(x.origin_right),
        c0: counter_bits(x.id),
        c1: x.lamport,
        c2: opt_bits(x.real_id),
        c3: opt_bits(x.origin_left),
        c4: opt_bits(x.origin_right),
        c5: x.content.start,
        c6: x.content.end,
        c7: u32::from(times_bits(x.status)) + 65536 * u32::from(diff_bits(x.diff_status)),
        c8: span_flags(x),
    }
}

// Row i of s.
pub fn get_row(s: &[u8], i: usize) -> FugueSpan
    requires { i * 72 + 72 ≤ length s.now }
    ensures { result ≡ row_at s.now (i * 72) }
{
    span_of(get_words(s, i * WIDTH))
}

// Row i becomes the span.
pub fn put_row(s: &mut [u8], i: usize, x: FugueSpan)
    requires { i * 72 + 72 ≤ length s.old }
    ensures { PutRow i x s.old s.new }
{
    put_words(s, i * WIDTH, words_of(x))
}

// The rows of s are n, with room for one more. x goes before row i.
pub fn insert_row(s: &mut [u8], n: usize, i: usize, x: FugueSpan)
    requires { (n * 72 + 72 ≤ length s.old) × (i ≤ n) }
    ensures { rows (n + 1) s.new ≡ take i (rows n s.old) ++ x ∷ drop i (rows n s.old) }
{
    s.copy_within(i * WIDTH..n * WIDTH, i * WIDTH + WIDTH);
    put_row(s, i, x)
}

// The rows of s are n. The k rows from row i on go, and the rows after them move down.
pub fn remove_rows(s: &mut [u8], n: usize, i: usize, k: usize)
    requires { (n * 72 ≤ length s.old) × (i + k ≤ n) }
    ensures { rows (n - k) s.new ≡ take i (rows n s.old) ++ drop (i + k) (rows n s.old) }
{
    s.copy_within((i + k) * WIDTH..n * WIDTH, i * WIDTH);
}
