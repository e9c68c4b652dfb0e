// Entries as they are handed in, in columns of numbers: what each says, what it uses and gives, and what refuses it.
ghost use Rattle.std.specs.Prelude.{◌≡◌, ◌+◌, ◌<◌};
ghost use Rattle.span.specs.Refusal.{code_of};
ghost use Rattle.rope.specs.Columns.{Hold};
ghost use Rattle.apply.specs.Apply.{lamport_fits};
ghost use Rattle.apply.specs.Given.{insert_given, given_of, given_at, takes, gives, given_code, insert_code, len_code};

use rope::diff::EntryNumbers;
use span::chunk::RichtextChunk;
use span::ids::{Id, real_has_room};
use span::refusal::Refusal;
use units::diff::Entry;

// ---- What the numbers say

fn insert_given(numbers: EntryNumbers, lamport: Option<u32>) -> Option<Entry>
    ensures { result ≡ insert_given numbers lamport }
{
    let content = RichtextChunk {
        start: numbers.a,
        end: numbers.b,
    };
    let id = store::id_of(numbers.peer, numbers.counter);
    Some(Entry::Insert(content, id, lamport))
}

// The entry, or none where no kind has this number.
#[tactic(auto, unfolding(crate::specs::Given::given_of))]
pub fn given_of(numbers: EntryNumbers) -> Option<Entry>
    ensures { result ≡ given_of numbers }
{
    match numbers.kind {
        0 => Some(Entry::Retain(numbers.a)),
        1 => Some(Entry::Delete(numbers.a)),
        2 => insert_given(numbers, Some(numbers.lamport)),
        3 => insert_given(numbers, None),
        _ => None,
    }
}

// The entry in place i of the columns. The loops that call it stay within the shortest column.
#[tactic(auto, unfolding(crate::specs::Given::given_at))]
pub fn given_at(
    kind: &[u8],
    a: &[u32],
    b: &[u32],
    peer: &[u64],
    counter: &[u32],
    lamport: &[u32],
    i: usize,
) -> Option<Entry>
    requires { Hold (i + 1) kind.now a.now b.now peer.now counter.now lamport.now }
    ensures { result ≡ given_at kind.now a.now b.now peer.now counter.now lamport.now i }
{
    given_of(EntryNumbers {
        kind: kind[i],
        a: a[i],
        b: b[i],
        peer: peer[i],
        counter: counter[i],
        lamport: lamport[i],
    })
}

// ---- What an entry uses and gives

// How many old units an entry uses.
#[tactic(auto, unfolding(crate::specs::Given::takes))]
pub fn takes(entry: Option<Entry>) -> usize
    ensures { (result ≡ takes entry) × (result < 4294967296) }
{
    match entry {
        Some(Entry::Retain(len) | Entry::Delete(len)) => len as usize,
        Some(Entry::Insert(_, _, _)) | None => 0,
    }
}

// How many new units it gives.
#[tactic(auto, unfolding(crate::specs::Given::gives))]
pub fn gives(entry: Option<Entry>) -> usize
    ensures { (result ≡ gives entry) × (result < 4294967296) }
{
    match entry {
        Some(Entry::Retain(len)) => len as usize,
        Some(Entry::Insert(content, _, _)) => content.len() as usize,
        Some(Entry::Delete(_)) | None => 0,
    }
}

// ---- Refusals

#[tactic(auto, unfolding(crate::specs::Apply::lamport_fits))]
fn lamport_fits(lamport: Option<u32>, len: u32) -> bool
    ensures { result ≡ lamport_fits lamport len }
{
    lamport.map_or(true, |first| first.checked_add(len).is_some())
}

#[tactic(auto, unfolding(crate::specs::Given::insert_code, span::specs::Chunk::chunk_code))]
fn check_insert(content: RichtextChunk, id: Id, lamport: Option<u32>) -> Result<(), Refusal>
    ensures { code_of result ≡ insert_code content id lamport }
{
    content.check()?;
    let len = content.len();
    if real_has_room(Some(id), len) && lamport_fits(lamport, len) {
        Ok(())
    } else {
        Err(Refusal::Id)
    }
}

fn check_len(len: u32) -> Result<(), Refusal>
    ensures { code_of result ≡ len_code len }
{
    if len == 0 {
        Err(Refusal::Mismatch)
    } else {
        Ok(())
    }
}

// What refuses an entry itself.
#[tactic(auto, unfolding(crate::specs::Given::given_code, crate::specs::Given::insert_code, crate::specs::Apply::entry_formed, crate::specs::Apply::entry_ids, crate::specs::Apply::entry_known))]
pub fn check_given(entry: Option<Entry>) -> Result<(), Refusal>
    ensures { code_of result ≡ given_code entry }
{
    match entry {
        Some(Entry::Retain(len) | Entry::Delete(len)) => check_len(len),
        Some(Entry::Insert(content, id, lamport)) => check_insert(content, id, lamport),
        None => Err(Refusal::Mismatch),
    }
}
