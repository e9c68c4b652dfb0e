// A line as a call: which it is, and its fields. Contexts and versions stay words of the line: an enum holds no list.
ghost use Rattle.std.specs.Prelude.{◌≡◌};
ghost use Rattle.script.specs.Call.{insert_from, insert_call, delete_from, deleting_of, arriving_of, set_word, updating_of, ins_of, del_of, two_versions, on_versions, row_of, alone_of, numbered_of, pair_call, several_of, call_of};

use crate::field::word;
use crate::{field, version};
use span::chunk::RichtextChunk;
use span::ids::Id;
use span::span::FugueSpan;
use text::parts::rest;
use units::change::SetFuture;

// Of `insert` and `ins`.
#[derive(Clone, Copy)]
pub struct Insert {
    pub pos: u32,
    pub id: Id,
    pub lamport: u32,
    pub content: RichtextChunk,
}

// Of `delete` and `del`: `start` is the first target.
#[derive(Clone, Copy)]
pub struct Delete {
    pub pos: u32,
    pub len: u32,
    pub start: Id,
    pub reversed: bool,
}

// The ids from..to, of one peer.
#[derive(Clone, Copy)]
pub struct Update {
    pub from: Id,
    pub to: Id,
    pub future: SetFuture,
    pub change: i16,
    pub on_diff: bool,
}

// PEER COUNTER of a deleting edit stand between LEN and TPEER.
#[derive(Clone, Copy)]
pub struct Arriving {
    pub id: Id,
    pub delete: Delete,
}

#[derive(Clone, Copy)]
pub enum RopeCall {
    Insert(Insert),
    Delete(Delete),
    Update(Update),
    Clear,
    Diff,
}

// The context of an edit is word 1 of the line, and so is the version of a checkout; a delta's versions are words 1 and 2.
#[derive(Clone, Copy)]
pub enum HistoryCall {
    Insert(Insert),
    Delete(Arriving),
    Checkout,
    Delta,
    Applied,
}

// What works on a rope and on a history alike.
#[derive(Clone, Copy)]
pub enum Look {
    At(u32),
    Len,
    Dump,
    Spans,
    Visible,
    Row(u32, FugueSpan),
    Rows(u32),
    Sum,
}

#[derive(Clone, Copy)]
pub enum Call {
    Room(u32),
    Targets(u32),
    Out(u32),
    Empty,
    Placeholder(u32),
    New(u32),
    Rope(RopeCall),
    History(HistoryCall),
    Look(Look),
}

// POS PEER COUNTER LAMPORT CHUNK
#[tactic(auto, unfolding(crate::specs::Call::insert_from))]
fn insert_from(t: &[u8]) -> Option<Insert>
    ensures { result ≡ insert_from t.now }
{
    let pos = field::number(word(t, 0))?;
    let id = field::id_of(word(t, 1), word(t, 2))?;
    let lamport = field::number(word(t, 3))?;
    let content = field::chunk(rest(t, b' ', 4))?;
    Some(Insert {
        pos,
        id,
        lamport,
        content,
    })
}

// An insert into a rope, or one that arrives at a history.
fn inserting(t: &[u8], arrives: bool) -> Option<Call>
    ensures { result ≡ insert_call arrives (insert_from t.now) }
{
    let insert = insert_from(t)?;
    if arrives {
        Some(Call::History(HistoryCall::Insert(insert)))
    } else {
        Some(Call::Rope(RopeCall::Insert(insert)))
    }
}

// POS LEN at the start of t, TPEER TCOUNTER REV at that of u.
#[tactic(auto, unfolding(crate::specs::Call::delete_from))]
fn delete_from(t: &[u8], u: &[u8]) -> Option<Delete>
    ensures { result ≡ delete_from t.now u.now }
{
    let pos = field::number(word(t, 0))?;
    let len = field::number(word(t, 1))?;
    let start = field::id_of(word(u, 0), word(u, 1))?;
    let reversed = field::flag(word(u, 2))?;
    Some(Delete {
        pos,
        len,
        start,
        reversed,
    })
}

// POS LEN TPEER TCOUNTER REV
#[tactic(auto, unfolding(crate::specs::Call::deleting_of))]
fn deleting(t: &[u8]) -> Option<Call>
    ensures { result ≡ deleting_of t.now }
{
    if field::words(t) != 5 {
        return None;
    }
    let delete = delete_from(t, rest(t, b' ', 2))?;
    Some(Call::Rope(RopeCall::Delete(delete)))
}

// POS LEN PEER COUNTER TPEER TCOUNTER REV
#[tactic(auto, unfolding(crate::specs::Call::arriving_of))]
fn arrives(t: &[u8]) -> Option<Call>
    ensures { result ≡ arriving_of t.now }
{
    if field::words(t) != 7 {
        return None;
    }
    let id = field::id_of(word(t, 2), word(t, 3))?;
    let delete = delete_from(t, rest(t, b' ', 4))?;
    Some(Call::History(HistoryCall::Delete(Arriving { id, delete })))
}

// future, now or keep
#[tactic(auto, unfolding(crate::specs::Call::set_word))]
fn set_future(w: &[u8]) -> Option<SetFuture>
    ensures { result ≡ set_word w.now }
{
    if w == b"future".as_slice() {
        Some(SetFuture::Future)
    } else if w == b"now".as_slice() {
        Some(SetFuture::Now)
    } else if w == b"keep".as_slice() {
        Some(SetFuture::Keep)
    } else {
        None
    }
}

// PEER FROM TO future|now|keep CHANGE DIFF
#[tactic(auto, unfolding(crate::specs::Call::updating_of))]
fn updating(t: &[u8]) -> Option<Call>
    ensures { result ≡ updating_of t.now }
{
    if field::words(t) != 6 {
        return None;
    }
    let peer = word(t, 0);
    let from = field::id_of(peer, word(t, 1))?;
    let to = field::id_of(peer, word(t, 2))?;
    let future = set_future(word(t, 3))?;
    let change = field::change(word(t, 4))?;
    let on_diff = field::flag(word(t, 5))?;
    Some(Call::Rope(RopeCall::Update(Update {
        from,
        to,
        future,
        change,
        on_diff,
    })))
}

// CTX POS PEER COUNTER LAMPORT CHUNK
#[tactic(auto, unfolding(crate::specs::Call::ins_of))]
fn ins(t: &[u8]) -> Option<Call>
    ensures { result ≡ ins_of t.now }
{
    if version::is_version(word(t, 0)) {
        inserting(rest(t, b' ', 1), true)
    } else {
        None
    }
}

// CTX POS LEN PEER COUNTER TPEER TCOUNTER REV
#[tactic(auto, unfolding(crate::specs::Call::del_of))]
fn del(t: &[u8]) -> Option<Call>
    ensures { result ≡ del_of t.now }
{
    if version::is_version(word(t, 0)) {
        arrives(rest(t, b' ', 1))
    } else {
        None
    }
}

// Whether t is A B, two versions.
#[tactic(auto, unfolding(crate::specs::Call::two_versions))]
fn two_versions(t: &[u8]) -> bool
    ensures { result ≡ two_versions t.now }
{
    field::words(t) == 2 && version::is_version(word(t, 0)) && version::is_version(word(t, 1))
}

// The call, where the versions that it names are some.
fn on_versions(are: bool, c: HistoryCall) -> Option<Call>
    ensures { result ≡ on_versions are c }
{
    if are { Some(Call::History(c)) } else { None }
}

// I SPAN
#[tactic(auto, unfolding(crate::specs::Call::row_of))]
fn row(t: &[u8]) -> Option<Call>
    ensures { result ≡ row_of t.now }
{
    let i = field::number(word(t, 0))?;
    let span = field::span(rest(t, b' ', 1))?;
    Some(Call::Look(Look::Row(i, span)))
}

// A line of one word. The names are compared by `==`: a `match` on byte strings tells the proof of its `_` arm lengths and no names.
#[tactic(auto, unfolding(crate::specs::Call::alone_of))]
fn alone(name: &[u8]) -> Option<Call>
    ensures { result ≡ alone_of name.now }
{
    if name == b"empty".as_slice() {
        Some(Call::Empty)
    } else if name == b"clear".as_slice() {
        Some(Call::Rope(RopeCall::Clear))
    } else if name == b"diff".as_slice() {
        Some(Call::Rope(RopeCall::Diff))
    } else if name == b"len".as_slice() {
        Some(Call::Look(Look::Len))
    } else if name == b"dump".as_slice() {
        Some(Call::Look(Look::Dump))
    } else if name == b"spans".as_slice() {
        Some(Call::Look(Look::Spans))
    } else if name == b"visible".as_slice() {
        Some(Call::Look(Look::Visible))
    } else if name == b"sum".as_slice() {
        Some(Call::Look(Look::Sum))
    } else {
        None
    }
}

// A line of a name and a number.
#[tactic(auto, unfolding(crate::specs::Call::numbered_of))]
fn numbered(name: &[u8], n: u32) -> Option<Call>
    ensures { result ≡ numbered_of name.now n }
{
    if name == b"room".as_slice() {
        Some(Call::Room(n))
    } else if name == b"targets".as_slice() {
        Some(Call::Targets(n))
    } else if name == b"out".as_slice() {
        Some(Call::Out(n))
    } else if name == b"placeholder".as_slice() {
        Some(Call::Placeholder(n))
    } else if name == b"new".as_slice() {
        Some(Call::New(n))
    } else if name == b"at".as_slice() {
        Some(Call::Look(Look::At(n)))
    } else if name == b"rows".as_slice() {
        Some(Call::Look(Look::Rows(n)))
    } else {
        None
    }
}

// A line of two words.
#[tactic(auto, unfolding(crate::specs::Call::pair_call))]
fn pair(name: &[u8], w: &[u8]) -> Option<Call>
    ensures { result ≡ pair_call name.now w.now }
{
    if name == b"checkout".as_slice() {
        on_versions(version::is_version(w), HistoryCall::Checkout)
    } else {
        numbered(name, field::number(w)?)
    }
}

// A line of more words, t those after the name.
#[tactic(auto, unfolding(crate::specs::Call::several_of))]
fn several(name: &[u8], t: &[u8]) -> Option<Call>
    ensures { result ≡ several_of name.now t.now }
{
    if name == b"insert".as_slice() {
        inserting(t, false)
    } else if name == b"delete".as_slice() {
        deleting(t)
    } else if name == b"update".as_slice() {
        updating(t)
    } else if name == b"ins".as_slice() {
        ins(t)
    } else if name == b"del".as_slice() {
        del(t)
    } else if name == b"delta".as_slice() {
        on_versions(two_versions(t), HistoryCall::Delta)
    } else if name == b"applied".as_slice() {
        on_versions(two_versions(t), HistoryCall::Applied)
    } else if name == b"row".as_slice() {
        row(t)
    } else {
        None
    }
}

// The call that a line says, if it says one: a line with no comment and no blank at its ends.
#[tactic(auto, unfolding(crate::specs::Call::call_by))]
pub fn parse(line: &[u8]) -> Option<Call>
    ensures { result ≡ call_of line.now }
{
    let name = word(line, 0);
    match field::words(line) {
        1 => alone(name),
        2 => pair(name, word(line, 1)),
        _ => several(name, rest(line, b' ', 1)),
    }
}
