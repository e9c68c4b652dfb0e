// The fields of a call, each read from its word. A word that does not say one is `None`.
ghost use Rattle.std.specs.Prelude.{◌≡◌};
ghost use Rattle.text.specs.Parts.{parts};
ghost use Rattle.script.specs.Field.{word_of, number_of, peer_of, counter_of, id_from, id_word, opt_word, status_from, status_word, diff_word, change_word, flag_word, raw_from, reserved_by, one_word, two_words, three_words, chunk_of, span_of};

use span::chunk::RichtextChunk;
use span::ids::{Id, UNKNOWN_PEER};
use span::span::FugueSpan;
use span::status::Status;
use text::numbers::{decimal, signed};
use text::parts::{after, before, part, parts};

// Word i of a line: empty, where there are not so many.
pub fn word(line: &[u8], i: usize) -> &[u8]
    ensures { result.now ≡ word_of line.now i }
{
    part(line, b' ', i)
}

// How many words a line has.
pub fn words(line: &[u8]) -> usize
    ensures { result ≡ parts 32 line.now }
{
    parts(line, b' ')
}

// A u32.
#[tactic(auto, unfolding(text::specs::Numbers::fit))]
pub fn number(w: &[u8]) -> Option<u32>
    ensures { result ≡ number_of w.now }
{
    u32::try_from(decimal(w, u64::from(u32::MAX))?).ok()
}

// A decimal u64, or `U` for the unknown peer.
#[tactic(auto, unfolding(crate::specs::Field::peer_of))]
pub fn peer(w: &[u8]) -> Option<u64>
    ensures { result ≡ peer_of w.now }
{
    if w == b"U".as_slice() {
        Some(UNKNOWN_PEER)
    } else {
        decimal(w, u64::MAX)
    }
}

// An i32.
#[tactic(auto, using(text::proofs::NumbersLaws::int32_fits))]
fn counter(w: &[u8]) -> Option<i32>
    ensures { result ≡ counter_of w.now }
{
    i32::try_from(signed(w, i32::MAX as u32)?).ok()
}

// A peer with a counter from another word.
#[tactic(auto, unfolding(crate::specs::Field::id_from))]
pub fn id_of(p: &[u8], c: &[u8]) -> Option<Id>
    ensures { result ≡ id_from p.now c.now }
{
    let peer = peer(p)?;
    let counter = counter(c)?;
    Some(Id { peer, counter })
}

// PEER.COUNTER
pub fn id(w: &[u8]) -> Option<Id>
    ensures { result ≡ id_word w.now }
{
    id_of(before(w, b'.'), after(w, b'.'))
}

// An id, or `-` for none.
#[tactic(auto, unfolding(crate::specs::Field::opt_word))]
pub fn opt_id(w: &[u8]) -> Option<Option<Id>>
    ensures { result ≡ opt_word w.now }
{
    if w == b"-".as_slice() {
        Some(None)
    } else {
        Some(Some(id(w)?))
    }
}

#[tactic(auto, unfolding(crate::specs::Field::status_from))]
fn status_of(future: bool, w: &[u8]) -> Option<Status>
    ensures { result ≡ status_from future w.now }
{
    let delete_times = change(w)?;
    Some(Status {
        future,
        delete_times,
    })
}

// now:COUNT or future:COUNT
#[tactic(auto, unfolding(crate::specs::Field::status_word))]
pub fn status(w: &[u8]) -> Option<Status>
    ensures { result ≡ status_word w.now }
{
    let times = after(w, b':');
    let name = before(w, b':');
    if name == b"now".as_slice() {
        status_of(false, times)
    } else if name == b"future".as_slice() {
        status_of(true, times)
    } else {
        None
    }
}

// A status, or `-` for none.
#[tactic(auto, unfolding(crate::specs::Field::diff_word))]
pub fn opt_status(w: &[u8]) -> Option<Option<Status>>
    ensures { result ≡ diff_word w.now }
{
    if w == b"-".as_slice() {
        Some(None)
    } else {
        Some(Some(status(w)?))
    }
}

// An i16.
#[tactic(auto, using(text::proofs::NumbersLaws::int16_fits), unfolding(crate::specs::Field::change_word))]
pub fn change(w: &[u8]) -> Option<i16>
    ensures { result ≡ change_word w.now }
{
    i16::try_from(signed(w, i16::MAX as u32)?).ok()
}

// 0 or 1, as they stand
#[tactic(auto, unfolding(crate::specs::Field::flag_word))]
pub fn flag(w: &[u8]) -> Option<bool>
    ensures { result ≡ flag_word w.now }
{
    if w == b"0".as_slice() {
        Some(false)
    } else if w == b"1".as_slice() {
        Some(true)
    } else {
        None
    }
}

// Any two numbers as a chunk.
#[tactic(auto, unfolding(crate::specs::Field::raw_from))]
pub fn raw(a: &[u8], b: &[u8]) -> Option<RichtextChunk>
    ensures { result ≡ raw_from a.now b.now }
{
    let start = number(a)?;
    let end = number(b)?;
    Some(RichtextChunk { start, end })
}

// A chunk of a reserved start and a number.
fn reserved(start: u32, w: &[u8]) -> Option<RichtextChunk>
    ensures { result ≡ reserved_by start (number_of w.now) }
{
    let end = number(w)?;
    Some(RichtextChunk { start, end })
}

// move
#[tactic(auto, unfolding(crate::specs::Field::one_word))]
fn one_word(name: &[u8]) -> Option<RichtextChunk>
    ensures { result ≡ one_word name.now }
{
    if name == b"move".as_slice() {
        Some(RichtextChunk::new_move())
    } else {
        None
    }
}

// unknown N, start I or end I
#[tactic(auto, unfolding(crate::specs::Field::two_words))]
fn two_words(name: &[u8], n: &[u8]) -> Option<RichtextChunk>
    ensures { result ≡ two_words name.now n.now }
{
    if name == b"unknown".as_slice() {
        reserved(RichtextChunk::UNKNOWN, n)
    } else if name == b"start".as_slice() {
        reserved(RichtextChunk::START_STYLE_ANCHOR, n)
    } else if name == b"end".as_slice() {
        reserved(RichtextChunk::END_STYLE_ANCHOR, n)
    } else {
        None
    }
}

// text A B or raw A B
#[tactic(auto, unfolding(crate::specs::Field::three_words))]
fn three_words(name: &[u8], a: &[u8], b: &[u8]) -> Option<RichtextChunk>
    ensures { result ≡ three_words name.now a.now b.now }
{
    if name == b"text".as_slice() || name == b"raw".as_slice() {
        raw(a, b)
    } else {
        None
    }
}

// A chunk of one to three words.
#[tactic(auto, unfolding(crate::specs::Field::chunk_by))]
pub fn chunk(t: &[u8]) -> Option<RichtextChunk>
    ensures { result ≡ chunk_of t.now }
{
    let name = word(t, 0);
    match words(t) {
        1 => one_word(name),
        2 => two_words(name, word(t, 1)),
        3 => three_words(name, word(t, 1), word(t, 2)),
        _ => None,
    }
}

// PEER.COUNTER LAMPORT REAL STATUS DIFF LEFT RIGHT A B
#[tactic(auto, unfolding(crate::specs::Field::span_of))]
pub fn span(t: &[u8]) -> Option<FugueSpan>
    ensures { result ≡ span_of t.now }
{
    if words(t) != 9 {
        return None;
    }
    let id = id(word(t, 0))?;
    let lamport = number(word(t, 1))?;
    let real_id = opt_id(word(t, 2))?;
    let status = status(word(t, 3))?;
    let diff_status = opt_status(word(t, 4))?;
    let origin_left = opt_id(word(t, 5))?;
    let origin_right = opt_id(word(t, 6))?;
    let content = raw(word(t, 7), word(t, 8))?;
    Some(FugueSpan {
        id,
        lamport,
        real_id,
        status,
        diff_status,
        origin_left,
        origin_right,
        content,
    })
}
