// A delta: the columns lent for one call, and a line for each entry that it put into them.
ghost use Rattle.std.specs.Prelude.{◌≡◌, ◌≤◌, [], ◌∷◌, length};
ghost use Rattle.rope.specs.Columns.{least};
ghost use Rattle.text.specs.Puts.{Puts};
ghost use Rattle.session.specs.Say.{Says};
ghost use Rattle.session.specs.Entries.{lamport_text, insert_line, entry_line, numbers_at, columns_lines, diff_lines, lent_entries};

use crate::console::Output;
use crate::reply;
use rope::diff::EntryNumbers;
use script::print;
use span::chunk::RichtextChunk;
use text::puts::put;

// ---- One entry

// LAMPORT, or - where the entry has none
#[tactic(auto, unfolding(crate::specs::Entries::lamport_text))]
fn lamport(text: &mut [u8], at: usize, x: EntryNumbers) -> usize
    ensures { Puts at (lamport_text x) text.old result text.new }
{
    if x.kind == 2 {
        print::number(text, at, u64::from(x.lamport))
    } else {
        put(text, at, b" -")
    }
}

// insert ID LAMPORT CHUNK
fn insert_line(text: &mut [u8], at: usize, x: EntryNumbers) -> usize
    ensures { Puts at (insert_line x) text.old result text.new }
{
    let content = RichtextChunk {
        start: x.a,
        end: x.b,
    };
    let at = put(text, at, b"insert");
    let at = print::id(text, at, store::id_of(x.peer, x.counter));
    let at = lamport(text, at, x);
    let at = print::chunk(text, at, content);
    put(text, at, b"\n")
}

#[tactic(auto, unfolding(crate::specs::Say::said_at, crate::specs::Say::said_text))]
fn inserted(output: &mut Output, text: &mut [u8], at: usize, x: EntryNumbers) -> usize
    ensures { Says at (insert_line x ∷ []) text.old result text.new }
{
    let at = reply::make_room(output, text, at);
    insert_line(text, at, x)
}

#[tactic(auto, unfolding(crate::specs::Entries::entry_line))]
fn entry(x: EntryNumbers, output: &mut Output, text: &mut [u8], at: usize) -> usize
    ensures { Says at (entry_line x ∷ []) text.old result text.new }
{
    match x.kind {
        0 => reply::counted(output, text, at, b"retain", u64::from(x.a)),
        1 => reply::counted(output, text, at, b"delete", u64::from(x.a)),
        _ => inserted(output, text, at, x),
    }
}

// ---- Columns

// Entry i of the columns. Past a column's end its number is 0.
fn numbers_at(
    kind: &[u8],
    a: &[u32],
    b: &[u32],
    peer: &[u64],
    counter: &[u32],
    lamport: &[u32],
    i: usize,
) -> EntryNumbers
    ensures { result ≡ numbers_at kind.now a.now b.now peer.now counter.now lamport.now i }
{
    EntryNumbers {
        kind: kind.get(i).copied().unwrap_or(0),
        a: a.get(i).copied().unwrap_or(0),
        b: b.get(i).copied().unwrap_or(0),
        peer: peer.get(i).copied().unwrap_or(0),
        counter: counter.get(i).copied().unwrap_or(0),
        lamport: lamport.get(i).copied().unwrap_or(0),
    }
}

// The n entries at the fronts of the columns.
pub fn entries(
    kind: &[u8],
    a: &[u32],
    b: &[u32],
    peer: &[u64],
    counter: &[u32],
    lamport: &[u32],
    n: usize,
    output: &mut Output,
    text: &mut [u8],
    start: usize,
) -> usize
    ensures { Says start (columns_lines kind.now a.now b.now peer.now counter.now lamport.now n) text.old result text.new }
{
    let mut at = reply::counted(output, text, start, b"entries", n as u64);
    for i in 0..n {
        let x = numbers_at(kind, a, b, peer, counter, lamport, i);
        at = entry(x, output, text, at);
    }
    at
}

// ---- The rope's delta

// get_diff into the columns, and its answer.
fn diff_into(
    s: &[u8],
    kind: &mut [u8],
    a: &mut [u32],
    b: &mut [u32],
    peer: &mut [u64],
    counter: &mut [u32],
    lamport: &mut [u32],
    output: &mut Output,
    text: &mut [u8],
    at: usize,
) -> usize
    ensures { Says at (diff_lines (least (length kind.old) (length a.old) (length b.old) (length peer.old) (length counter.old) (length lamport.old)) s.now) text.old result text.new }
{
    match rope::diff::get_diff(s, kind, a, b, peer, counter, lamport) {
        Ok(n) => entries(kind, a, b, peer, counter, lamport, n, output, text, at),
        Err(refusal) => reply::refused(output, text, at, refusal.number()),
    }
}

// The entries lent where n are asked: 8,192 at most.
#[tactic(auto, unfolding(crate::specs::Entries::lent_entries))]
pub fn most(n: usize) -> usize
    ensures { (result ≡ lent_entries n) × (result ≤ 8192) }
{
    n.min(8192)
}

// The delta of a rope, with so many entries lent.
pub fn diff(s: &[u8], room: usize, output: &mut Output, text: &mut [u8], at: usize) -> usize
    ensures { Says at (diff_lines (lent_entries room) s.now) text.old result text.new }
{
    let n = most(room);
    let mut kind = [0u8; 8192];
    let mut a = [0u32; 8192];
    let mut b = [0u32; 8192];
    let mut peer = [0u64; 8192];
    let mut counter = [0u32; 8192];
    let mut lamport = [0u32; 8192];
    diff_into(
        s,
        &mut kind[..n],
        &mut a[..n],
        &mut b[..n],
        &mut peer[..n],
        &mut counter[..n],
        &mut lamport[..n],
        output,
        text,
        at,
    )
}
