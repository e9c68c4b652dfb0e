// The header of a store: one row's width before the rows. Its first eight bytes hold the number of rows; the rest is written 0 and never read.
ghost use Rattle.std.specs.Prelude.{◌≡◌, ◌≤◌, length};
ghost use Rattle.words.specs.Le.{bytes_of, put};
ghost use Rattle.store.specs.Header.{count, room, header_bytes, header_words};

use crate::Words;
use crate::limits::ROWS;
use crate::list::WIDTH;

// The number of rows that the header says.
pub fn count(s: &[u8]) -> u64
    requires { 72 ≤ length s.now }
    ensures { result ≡ count s.now }
{
    u64::from_le_bytes(words::bytes_at(s, 0))
}

// The rows of room after the header.
#[tactic(auto, unfolding(crate::specs::Header::room))]
pub fn room(s: &[u8]) -> usize
    ensures { result ≡ room s.now }
{
    (s.len().saturating_sub(WIDTH) / WIDTH).min(ROWS)
}

// Another number of rows; the rest of the header stays.
#[tactic(auto, using(words::proofs::Bytes::writes))]
pub fn set_count(s: &mut [u8], n: u64)
    requires { 72 ≤ length s.old }
    ensures { s.new ≡ put 0 (bytes_of 8 n) s.old }
{
    words::put(s, 0, n.to_le_bytes())
}

fn header_words(n: u64) -> Words
    ensures { result ≡ header_words n }
{
    Words {
        p0: n,
        ..Words::default()
    }
}

// A whole header, for a store that is opened.
#[tactic(auto, unfolding(crate::specs::Header::header_bytes))]
pub fn put_header(s: &mut [u8], n: u64)
    requires { 72 ≤ length s.old }
    ensures { s.new ≡ put 0 (header_bytes n) s.old }
{
    crate::put_words(s, 0, header_words(n))
}
