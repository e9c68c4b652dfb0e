// The delta between two versions of a history, printed, or applied to the list by the applier. Columns and the old list are lent for one call.
ghost use Rattle.std.specs.Prelude.{length, take};
ghost use Rattle.rope.specs.Columns.{least};
ghost use Rattle.apply.specs.Called.{Called, delta_items, delta_code};
ghost use Rattle.tracker.specs.Entries.{version_of};
ghost use Rattle.tracker.specs.Between.{Deltas};
ghost use Rattle.script.specs.Field.{word_of};
ghost use Rattle.session.specs.Say.{Says};
ghost use Rattle.session.specs.Entries.{lent_entries, item_at, listed_lines, answer_lines};
ghost use Rattle.session.specs.Columns.{word_peers, word_counts};
ghost use Rattle.session.specs.History.{Tells};
ghost use Rattle.session.specs.Applied.{on_list_items, on_list_code, AppliesIn, Applies};

use crate::console::Output;
use crate::entries::most;
use crate::front::{front, front_items};
use crate::versions::VersionColumns;
use crate::{entries, reply};
use apply::item::get_item;
use script::field::word;
use span::refusal::Refusal;

// ---- The delta

// The delta into the columns, from the version in word 1 of the line to that in word 2.
fn delta_into(
    line: &[u8],
    s: &mut [u8],
    t: &[u8],
    e: &[u8],
    kind: &mut [u8],
    a: &mut [u32],
    b: &mut [u32],
    peer: &mut [u64],
    counter: &mut [u32],
    lamport: &mut [u32],
) -> Result<usize, Refusal>
    ensures { Deltas s.old t.now e.now (version_of (word_peers (word_of line.now 1)) (word_counts (word_of line.now 1))) (version_of (word_peers (word_of line.now 2)) (word_counts (word_of line.now 2))) (least (length kind.old) (length a.old) (length b.old) (length peer.old) (length counter.old) (length lamport.old)) result s.new kind.old a.old b.old peer.old counter.old lamport.old kind.new a.new b.new peer.new counter.new lamport.new }
{
    let from = VersionColumns::new(word(line, 1));
    let to = VersionColumns::new(word(line, 2));
    tracker::delta::delta(
        s,
        t,
        e,
        from.peers(),
        from.counts(),
        to.peers(),
        to.counts(),
        kind,
        a,
        b,
        peer,
        counter,
        lamport,
    )
}

// The delta, and its answer.
fn print_delta(
    line: &[u8],
    s: &mut [u8],
    t: &[u8],
    e: &[u8],
    kind: &mut [u8],
    a: &mut [u32],
    b: &mut [u32],
    peer: &mut [u64],
    counter: &mut [u32],
    lamport: &mut [u32],
    output: &mut Output,
    text: &mut [u8],
    at: usize,
) -> usize
    ensures { Tells (least (length kind.old) (length a.old) (length b.old) (length peer.old) (length counter.old) (length lamport.old)) (word_of line.now 1) (word_of line.now 2) s.old t.now e.now at text.old result s.new text.new }
{
    match delta_into(line, s, t, e, kind, a, b, peer, counter, lamport) {
        Ok(n) => entries::entries(kind, a, b, peer, counter, lamport, n, output, text, at),
        Err(refusal) => reply::refused(output, text, at, refusal.number()),
    }
}

// The delta of a history, with so many entries lent.
pub fn delta(
    line: &[u8],
    s: &mut [u8],
    t: &[u8],
    e: &[u8],
    room: usize,
    output: &mut Output,
    text: &mut [u8],
    at: usize,
) -> usize
    ensures { Tells (lent_entries room) (word_of line.now 1) (word_of line.now 2) s.old t.now e.now at text.old result s.new text.new }
{
    let n = most(room);
    let mut kind = [0u8; 8192];
    let mut a = [0u32; 8192];
    let mut b = [0u32; 8192];
    let mut peer = [0u64; 8192];
    let mut counter = [0u32; 8192];
    let mut lamport = [0u32; 8192];
    print_delta(
        line,
        s,
        t,
        e,
        &mut kind[..n],
        &mut a[..n],
        &mut b[..n],
        &mut peer[..n],
        &mut counter[..n],
        &mut lamport[..n],
        output,
        text,
        at,
    )
}

// ---- The delta applied

#[tactic(auto, unfolding(crate::specs::Say::said_at, crate::specs::Say::said_text, crate::specs::Entries::item_at))]
fn item(out: &[u8], i: usize, output: &mut Output, text: &mut [u8], at: usize) -> usize
    ensures { Says at (item_at out.now i) text.old result text.new }
{
    if i < out.len() / 24 {
        let x = get_item(out, i);
        reply::item(output, text, at, x.id, x.content)
    } else {
        at
    }
}

// The n items at the front.
fn items(out: &[u8], n: usize, output: &mut Output, text: &mut [u8], start: usize) -> usize
    ensures { Says start (listed_lines out.now n) text.old result text.new }
{
    let mut at = reply::counted(output, text, start, b"list", n as u64);
    for i in 0..n {
        at = item(out, i, output, text, at);
    }
    at
}

// The first n entries of the columns applied to the old list, into the items lent in out.
fn apply_entries(
    kind: &[u8],
    a: &[u32],
    b: &[u32],
    peer: &[u64],
    counter: &[u32],
    lamport: &[u32],
    n: usize,
    old: &[u8],
    out: &mut [u8],
) -> Result<usize, Refusal>
    ensures { Called (delta_code (take n kind.now) (take n a.now) (take n b.now) (take n peer.now) (take n counter.now) (take n lamport.now) old.now out.old) (delta_items (take n kind.now) (take n a.now) (take n b.now) (take n peer.now) (take n counter.now) (take n lamport.now) old.now) out.old result out.new }
{
    apply::delta::apply(
        front(kind, n),
        front(a, n),
        front(b, n),
        front(peer, n),
        front(counter, n),
        front(lamport, n),
        old,
        out,
    )
}

#[tactic(auto, unfolding(crate::specs::Entries::answer_lines))]
fn listed(
    r: Result<usize, Refusal>,
    out: &[u8],
    output: &mut Output,
    text: &mut [u8],
    at: usize,
) -> usize
    ensures { Says at (answer_lines r out.now) text.old result text.new }
{
    match r {
        Ok(n) => items(out, n, output, text, at),
        Err(refusal) => reply::refused(output, text, at, refusal.number()),
    }
}

// The list as it stands, and the entries applied to it. A list that the old one's room does not take is refused as the applier would.
fn apply_to_list(
    s: &[u8],
    kind: &[u8],
    a: &[u32],
    b: &[u32],
    peer: &[u64],
    counter: &[u32],
    lamport: &[u32],
    n: usize,
    out: &mut [u8],
) -> Result<usize, Refusal>
    ensures { Called (on_list_code (take n kind.now) (take n a.now) (take n b.now) (take n peer.now) (take n counter.now) (take n lamport.now) s.now out.old) (on_list_items (take n kind.now) (take n a.now) (take n b.now) (take n peer.now) (take n counter.now) (take n lamport.now) s.now) out.old result out.new }
{
    let mut old = [0u8; 589824];
    let m = apply::visible::visible_items(s, &mut old)?;
    let old = front_items(&old, m);
    apply_entries(kind, a, b, peer, counter, lamport, n, old, out)
}

// The delta, and the list at its first version with it applied.
fn apply_delta(
    line: &[u8],
    s: &mut [u8],
    t: &[u8],
    e: &[u8],
    kind: &mut [u8],
    a: &mut [u32],
    b: &mut [u32],
    peer: &mut [u64],
    counter: &mut [u32],
    lamport: &mut [u32],
    out: &mut [u8],
) -> Result<usize, Refusal>
    ensures { AppliesIn (least (length kind.old) (length a.old) (length b.old) (length peer.old) (length counter.old) (length lamport.old)) (word_of line.now 1) (word_of line.now 2) s.old t.now e.now out.old result s.new out.new }
{
    let n = delta_into(line, s, t, e, kind, a, b, peer, counter, lamport)?;
    apply_to_list(s, kind, a, b, peer, counter, lamport, n, out)
}

// The same with columns lent, as many entries as the output has rows.
fn with_columns(
    line: &[u8],
    s: &mut [u8],
    t: &[u8],
    e: &[u8],
    room: usize,
    out: &mut [u8],
) -> Result<usize, Refusal>
    ensures { AppliesIn (lent_entries room) (word_of line.now 1) (word_of line.now 2) s.old t.now e.now out.old result s.new out.new }
{
    let n = most(room);
    let mut kind = [0u8; 8192];
    let mut a = [0u32; 8192];
    let mut b = [0u32; 8192];
    let mut peer = [0u64; 8192];
    let mut counter = [0u32; 8192];
    let mut lamport = [0u32; 8192];
    apply_delta(
        line,
        s,
        t,
        e,
        &mut kind[..n],
        &mut a[..n],
        &mut b[..n],
        &mut peer[..n],
        &mut counter[..n],
        &mut lamport[..n],
        out,
    )
}

// The visible list at the first version with the delta to the second applied to it.
pub fn applied(
    line: &[u8],
    s: &mut [u8],
    t: &[u8],
    e: &[u8],
    out: &mut [u8],
    output: &mut Output,
    text: &mut [u8],
    at: usize,
) -> usize
    ensures { Applies (word_of line.now 1) (word_of line.now 2) s.old t.now e.now out.old at text.old result s.new out.new text.new }
{
    let room = out.len() / 72;
    let n = room * 24;
    let r = with_columns(line, s, t, e, room, &mut out[..n]);
    listed(r, out, output, text, at)
}
