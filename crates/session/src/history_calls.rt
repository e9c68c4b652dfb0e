// The calls of a history, each with its answer. A context or version is word 1 of the line; a delta's versions are words 1 and 2.
ghost use Rattle.std.specs.Prelude.{◌≡◌};
ghost use Rattle.session.specs.History.{Arrives, Goes};
ghost use Rattle.session.specs.HistoryCalls.{insert_head, delete_head, HistorySays};

use crate::console::Output;
use crate::versions::VersionColumns;
use crate::{applied, reply};
use script::call::{Arriving, HistoryCall, Insert};
use script::field::word;
use span::refusal::code_of;
use tracker::row::{Does, Head};

fn inserting(x: Insert) -> Head
    ensures { result ≡ insert_head x }
{
    Head {
        id: x.id,
        at: x.pos,
        act: Does::Insert(x.lamport, x.content),
    }
}

fn deleting(x: Arriving) -> Head
    ensures { result ≡ delete_head x }
{
    let delete = x.delete;
    Head {
        id: x.id,
        at: delete.pos,
        act: Does::Delete(delete.len, delete.reversed, delete.start),
    }
}

// An edit arrives, with the context in w.
fn arrive(
    x: Head,
    w: &[u8],
    s: &mut [u8],
    t: &mut [u8],
    e: &mut [u8],
    output: &mut Output,
    text: &mut [u8],
    at: usize,
) -> usize
    ensures { Arrives x w.now s.old t.old e.old at text.old result s.new t.new e.new text.new }
{
    let version = VersionColumns::new(w);
    let outcome = tracker::arrive::arrive(s, t, e, x, version.peers(), version.counts());
    reply::done(output, text, at, code_of(outcome))
}

// The list goes to the version in w.
fn checkout(
    w: &[u8],
    s: &mut [u8],
    t: &[u8],
    e: &[u8],
    output: &mut Output,
    text: &mut [u8],
    at: usize,
) -> usize
    ensures { Goes w.now s.old t.now e.now at text.old result s.new text.new }
{
    let version = VersionColumns::new(w);
    let outcome = tracker::checkout::checkout(s, t, e, version.peers(), version.counts());
    reply::done(output, text, at, code_of(outcome))
}

pub fn call(
    c: HistoryCall,
    line: &[u8],
    s: &mut [u8],
    t: &mut [u8],
    e: &mut [u8],
    out: &mut [u8],
    output: &mut Output,
    text: &mut [u8],
    at: usize,
) -> usize
    ensures { HistorySays c line.now s.old t.old e.old out.old at text.old result s.new t.new e.new out.new text.new }
{
    match c {
        HistoryCall::Insert(x) => arrive(inserting(x), word(line, 1), s, t, e, output, text, at),
        HistoryCall::Delete(x) => arrive(deleting(x), word(line, 1), s, t, e, output, text, at),
        HistoryCall::Checkout => checkout(word(line, 1), s, t, e, output, text, at),
        HistoryCall::Delta => applied::delta(line, s, t, e, out.len() / 72, output, text, at),
        HistoryCall::Applied => applied::applied(line, s, t, e, out, output, text, at),
    }
}
