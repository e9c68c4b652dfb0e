// The rows of a log, its header, and one edit more. Offsets are in specs/Rows. The entries know the rooms, so each function asks that its bytes are there.
ghost use Rattle.std.specs.Prelude.{◌≡◌, ◌+◌, ◌*◌, ◌/◌, ◌≤◌, ◌<◌, length, take, drop, if◌then◌else◌};
ghost use Rattle.words.specs.Le.{bytes_of, put};
ghost use Rattle.span.specs.Chunk.{chunk};
ghost use Rattle.store.specs.Row.{low_of};
ghost use Rattle.history.specs.Edit.{Insert, Delete};
ghost use Rattle.tracker.specs.Rows.{to_count, to_range, to_edit, pair_in, pair_bytes, range_in, range_bytes, target_room, context_in, edit_in, took_in, pairs_in, head_bytes, edit_count, placeholder_in, kind_of, lamport_of, first_of, last_of, target_peer, to_act};
ghost use Rattle.tracker.specs.Writes.{header_bytes, target_counter, HeadFits, Appended};

use span::chunk::RichtextChunk;
use span::ids::Id;
use store::limits::ROWS;
use words::bytes_at;

// A pair of a version: a peer, and how many of its counters.
#[derive(Clone, Copy)]
pub struct Pair {
    pub peer: u64,
    pub many: i32,
}

// A range of ids that a delete took.
#[derive(Clone, Copy)]
pub struct Target {
    pub id: Id,
    pub len: u32,
}

// An insert's lamport and chunk; a delete's length, whether it is reversed, and its target start.
#[derive(Clone, Copy)]
pub enum Does {
    Insert(u32, RichtextChunk),
    Delete(u32, bool, Id),
}

// An edit without its context.
#[derive(Clone, Copy)]
pub struct Head {
    pub id: Id,
    pub at: u32,
    pub act: Does,
}

pub fn get_pair(v: &[u8], i: usize) -> Pair
    requires { i * 12 + 12 ≤ length v.now }
    ensures { to_count result ≡ pair_in (drop (i * 12) v.now) }
{
    let at = i * 12;
    let peer = u64::from_le_bytes(bytes_at(v, at));
    let many = i32::from_le_bytes(bytes_at(v, at + 8));
    Pair { peer, many }
}

pub fn put_pair(v: &mut [u8], i: usize, k: Pair)
    requires { i * 12 + 12 ≤ length v.old }
    ensures { v.new ≡ put (i * 12) (pair_bytes k) v.old }
{
    let at = i * 12;
    words::put(v, at, k.peer.to_le_bytes());
    words::put(v, at + 8, k.many.to_le_bytes());
}

pub fn get_target(t: &[u8], i: usize) -> Target
    requires { i * 16 + 16 ≤ length t.now }
    ensures { to_range result ≡ range_in (drop (i * 16) t.now) }
{
    let at = i * 16;
    let peer = u64::from_le_bytes(bytes_at(t, at));
    let bits = u32::from_le_bytes(bytes_at(t, at + 8));
    let len = u32::from_le_bytes(bytes_at(t, at + 12));
    let id = store::id_of(peer, bits);
    Target { id, len }
}

pub fn put_target(t: &mut [u8], i: usize, x: Target)
    requires { i * 16 + 16 ≤ length t.old }
    ensures { t.new ≡ put (i * 16) (range_bytes x) t.old }
{
    let at = i * 16;
    let bits = store::counter_bits(x.id);
    words::put(t, at, x.id.peer.to_le_bytes());
    words::put(t, at + 8, bits.to_le_bytes());
    words::put(t, at + 12, x.len.to_le_bytes());
}

// How many target ranges fit.
#[tactic(auto, unfolding(crate::specs::Rows::target_room))]
pub fn target_room(t: &[u8]) -> usize
    ensures { result ≡ target_room t.now }
{
    ROWS.min(t.len() / 16)
}

// What an edit does, from the words of its row.
fn does_of(kind: u32, lamport: u32, first: u32, last: u32, target: Id) -> Does
    ensures { to_act result ≡ (if low_of kind then Delete first (low_of (kind / 2)) target else Insert lamport (chunk first last)) }
{
    if store::low(kind) {
        Does::Delete(first, store::low(kind / 2), target)
    } else {
        Does::Insert(
            lamport,
            RichtextChunk {
                start: first,
                end: last,
            },
        )
    }
}

// The edit in a row, which stands at the front of e.
pub fn get_head(e: &[u8]) -> Head
    requires { 64 ≤ length e.now }
    ensures { to_edit result (context_in e.now) ≡ edit_in e.now }
{
    let id = store::id_of(
        u64::from_le_bytes(bytes_at(e, 0)),
        u32::from_le_bytes(bytes_at(e, 16)),
    );
    let target = store::id_of(
        u64::from_le_bytes(bytes_at(e, 8)),
        u32::from_le_bytes(bytes_at(e, 40)),
    );
    let at = u32::from_le_bytes(bytes_at(e, 20));
    let kind = u32::from_le_bytes(bytes_at(e, 24));
    let lamport = u32::from_le_bytes(bytes_at(e, 28));
    let first = u32::from_le_bytes(bytes_at(e, 32));
    let last = u32::from_le_bytes(bytes_at(e, 36));
    Head {
        id,
        at,
        act: does_of(kind, lamport, first, last, target),
    }
}

// How many target ranges the row says.
#[tactic(auto, using(words::proofs::Bytes::reads), unfolding(crate::specs::Rows::took_in))]
pub fn get_took(e: &[u8]) -> u32
    requires { 64 ≤ length e.now }
    ensures { result ≡ took_in e.now }
{
    u32::from_le_bytes(bytes_at(e, 44))
}

// How many pairs the row says.
#[tactic(auto, using(words::proofs::Bytes::reads), unfolding(crate::specs::Rows::pairs_in))]
pub fn get_pairs(e: &[u8]) -> u32
    requires { 64 ≤ length e.now }
    ensures { result ≡ pairs_in e.now }
{
    u32::from_le_bytes(bytes_at(e, 48))
}

// The words of what an edit does: what it does not have is 0.
#[derive(Clone, Copy)]
struct Words {
    kind: u32,
    lamport: u32,
    first: u32,
    last: u32,
    target: Id,
}

fn words_of(act: Does) -> Words
    ensures kind { result.kind ≡ kind_of act }
    ensures lamport { result.lamport ≡ lamport_of act }
    ensures first { result.first ≡ first_of act }
    ensures last { result.last ≡ last_of act }
    ensures peer { result.target.peer ≡ target_peer act }
    ensures counter { result.target.counter ≡ target_counter act }
{
    match act {
        Does::Insert(lamport, content) => Words {
            kind: 0,
            lamport,
            first: content.start,
            last: content.end,
            target: Id {
                peer: 0,
                counter: 0,
            },
        },
        Does::Delete(len, reversed, start) => Words {
            kind: 1 + 2 * u32::from(reversed),
            lamport: 0,
            first: len,
            last: 0,
            target: start,
        },
    }
}

// An edit's row up to its pairs. The words fit, so they are read back as they were.
pub fn put_head(e: &mut [u8], i: usize, x: Head, took: u32, many: u32)
    requires { i * 256 + 64 ≤ length e.old }
    ensures { (e.new ≡ put (i * 256) (head_bytes x took many) e.old) × HeadFits x took many }
{
    let at = i * 256;
    let w = words_of(x.act);
    words::put(e, at, x.id.peer.to_le_bytes());
    words::put(e, at + 8, w.target.peer.to_le_bytes());
    words::put_all(
        e,
        at + 16,
        [
            store::counter_bits(x.id).to_le_bytes(),
            x.at.to_le_bytes(),
            w.kind.to_le_bytes(),
            w.lamport.to_le_bytes(),
        ],
    );
    words::put_all(
        e,
        at + 32,
        [
            w.first.to_le_bytes(),
            w.last.to_le_bytes(),
            store::counter_bits(w.target).to_le_bytes(),
            took.to_le_bytes(),
        ],
    );
    words::put_all(e, at + 48, [many.to_le_bytes(), [0; 4], [0; 4], [0; 4]]);
}

// The header of the edits: how many there are, and the units of the placeholder.
pub fn edit_count(e: &[u8]) -> u64
    requires { 64 ≤ length e.now }
    ensures { result ≡ edit_count e.now }
{
    u64::from_le_bytes(bytes_at(e, 0))
}

pub fn placeholder(e: &[u8]) -> u64
    requires { 64 ≤ length e.now }
    ensures { result ≡ placeholder_in e.now }
{
    u64::from_le_bytes(bytes_at(e, 8))
}

// Another number of edits; the rest of the header stays.
#[tactic(auto, using(words::proofs::Bytes::writes))]
pub fn set_edit_count(e: &mut [u8], n: u64)
    requires { 64 ≤ length e.old }
    ensures { e.new ≡ put 0 (bytes_of 8 n) e.old }
{
    words::put(e, 0, n.to_le_bytes())
}

// A whole header, for a history that is opened.
pub fn put_header(e: &mut [u8], count: u64, placeholder: u64)
    requires { 64 ≤ length e.old }
    ensures { e.new ≡ put 0 (header_bytes count placeholder) e.old }
{
    words::put_all(
        e,
        0,
        [
            count.to_le_bytes(),
            placeholder.to_le_bytes(),
            [0; 8],
            [0; 8],
        ],
    );
    words::put_all(e, 32, [[0; 8]; 4]);
}

// n bytes of x from `from` on, from `at` on.
#[tactic(auto, unfolding(words::specs::Le::put))]
fn copy_bytes(e: &mut [u8], at: usize, x: &[u8], from: usize, n: usize)
    requires { (at + n ≤ length e.old) × (from + n ≤ length x.now) }
    ensures { e.new ≡ put at (take n (drop from x.now)) e.old }
{
    e[at..at + n].copy_from_slice(&x[from..from + n]);
}

// The edit of the row x goes to row h, with `took` target ranges: its head anew, its pairs as they are. A version has 16 pairs at the most.
pub fn append_edit(e: &mut [u8], h: usize, x: &[u8], took: u32)
    requires { (h * 256 + 256 ≤ length e.old) × (256 ≤ length x.now) × (pairs_in x.now ≤ 16) }
    ensures { Appended h x.now took e.old e.new }
{
    let head = get_head(x);
    let many = get_pairs(x);
    put_head(e, h, head, took, many);
    copy_bytes(e, h * 256 + 64, x, 64, (many as usize) * 12);
}
