// What the edits held say of an edit or a version that arrives: refusals 1, 2, 4, 5, 6 and 7 of document 01. The edits are h rows from the
// header on. No target range is read, so each contract is for every t.
ghost use Rattle.std.specs.Prelude.{◌≡◌, true, not, ◌||◌, List, [], ℕ, ◌+◌, ◌*◌, ◌≤◌, ◌<◌, length, drop, if◌then◌else◌, nat_le, ◌==◌};
ghost use Rattle.span.specs.Refusal.{code_of};
ghost use Rattle.units.specs.Lists.{every};
ghost use Rattle.store.specs.Limits.{PEERS, EDITS};
ghost use Rattle.store.specs.Row.{bits32};
ghost use Rattle.history.specs.Edit.{size};
ghost use Rattle.history.specs.Version.{held_count, is_held, named, within, whole_act, closed_for, closed, version_code};
ghost use Rattle.history.specs.Valid.{has_peer, peer_count, edit_code, edits_fit};
ghost use Rattle.tracker.specs.Rows.{to_count, to_act, pairs, context_in, edit_in, held};
ghost use Rattle.tracker.specs.Refused.{from, context_code};
ghost use Rattle.tracker.specs.Last.{last_for, closed_last};

use crate::act::{act_code, at_most, count_held, counter_is, end_of, less_than, size_of};
use crate::look::edit_id;
use crate::row::{Does, Pair, get_head, get_pair, get_pairs};
use crate::version::{self, below, count_of, rising};
use span::ids::Id;
use span::refusal::Refusal;
use store::limits::PEERS;
use words::bytes_at;

// ---------------------------------------------------------------- counts

// The peer of edit i.
fn peer_at(e: &[u8], i: usize) -> u64
    requires { i * 256 + 256 ≤ length e.now }
    ensures { result ≡ (edit_in (drop (i * 256) e.now)).id.peer }
{
    u64::from_le_bytes(bytes_at(e, i * 256))
}

fn row_size(row: &[u8]) -> u32
    requires { 256 ≤ length row.now }
    ensures { result ≡ size (edit_in row.now) }
{
    size_of(get_head(row).act)
}

// The counters of edit i that are the peer's.
fn own_size(e: &[u8], i: usize, peer: u64) -> u32
    requires { i * 256 + 256 ≤ length e.now }
    ensures { result ≡ (if (edit_in (drop (i * 256) e.now)).id.peer == peer then size (edit_in (drop (i * 256) e.now)) else 0) }
{
    if peer_at(e, i) == peer {
        row_size(&e[i * 256..])
    } else {
        0
    }
}

// The count held for a peer.
#[tactic(auto, using(crate::proofs::HeldLaws::counts))]
pub fn held_count(e: &[u8], h: usize, peer: u64) -> u64
    requires { (h * 256 ≤ length e.now) × (h ≤ EDITS) }
    ensures { (t : List ℕ) → result ≡ held_count (held h e.now t) peer }
{
    let mut sum = 0;
    for i in 0..h {
        sum += u64::from(own_size(e, i, peer));
    }
    sum
}

// The counter behind the last of edit i.
fn end_at(e: &[u8], i: usize) -> u64
    requires { i * 256 + 256 ≤ length e.now }
    ensures { result ≡ bits32 (edit_in (drop (i * 256) e.now)).id.counter + size (edit_in (drop (i * 256) e.now)) }
{
    let bits = store::counter_bits(edit_id(e, i));
    u64::from(bits) + u64::from(row_size(&e[i * 256..]))
}

// The count held for a peer where the edits fit: its last edit ends there. It is looked for from the end.
#[tactic(auto, using(crate::proofs::HeldLaws::count_done, crate::proofs::Ends::passed))]
fn last_count(e: &[u8], h: usize, peer: u64) -> u64
    requires { (h * 256 ≤ length e.now) × ((t : List ℕ) → edits_fit [] (held h e.now t) ≡ true) }
    ensures { (t : List ℕ) → result ≡ held_count (held h e.now t) peer }
{
    for i in (0..h).rev() {
        if peer_at(e, i) == peer {
            return end_at(e, i);
        }
    }
    0
}

// The count held for a peer. It is quicker if the edits are known to fit.
fn count_for(e: &[u8], h: usize, peer: u64, fit: bool) -> u64
    requires { (h * 256 ≤ length e.now) × (h ≤ EDITS) × (fit ≡ true → (t : List ℕ) → edits_fit [] (held h e.now t) ≡ true) }
    ensures { (t : List ℕ) → result ≡ held_count (held h e.now t) peer }
{
    if fit {
        last_count(e, h, peer)
    } else {
        held_count(e, h, peer)
    }
}

// Whether a peer has edits.
#[tactic(auto, using(crate::proofs::HeldLaws::holders))]
pub fn has_peer(e: &[u8], h: usize, peer: u64) -> bool
    requires { (h * 256 ≤ length e.now) × (h ≤ EDITS) }
    ensures { (t : List ℕ) → result ≡ has_peer (held h e.now t) peer }
{
    for i in 0..h {
        if peer_at(e, i) == peer {
            return true;
        }
    }
    false
}

// 1 if no edit after edit i has its peer, and else 0.
fn last_of_peer(e: &[u8], h: usize, i: usize) -> usize
    requires { (h * 256 ≤ length e.now) × (h ≤ EDITS) × (i < h) }
    ensures one { result ≤ 1 }
    ensures last { (t : List ℕ) → result ≡ (if has_peer (from h e.now t (i + 1)) (edit_in (drop (i * 256) e.now)).id.peer then 0 else 1) }
{
    let next = i + 1;
    let peer = peer_at(e, i);
    usize::from(!has_peer(&e[next * 256..], h - next, peer))
}

// How many peers have edits.
#[tactic(auto, using(crate::proofs::HeldLaws::peers))]
pub fn peer_count(e: &[u8], h: usize) -> usize
    requires { (h * 256 ≤ length e.now) × (h ≤ EDITS) }
    ensures { (t : List ℕ) → result ≡ peer_count (held h e.now t) }
{
    let mut k = 0;
    for i in 0..h {
        k += last_of_peer(e, h, i);
    }
    k
}

// 4: a peer that has edits, or room for one more.
fn peer_fits(e: &[u8], h: usize, peer: u64) -> bool
    requires { (h * 256 ≤ length e.now) × (h ≤ EDITS) }
    ensures { (t : List ℕ) → result ≡ (has_peer (held h e.now t) peer || not (nat_le PEERS (peer_count (held h e.now t)))) }
{
    has_peer(e, h, peer) || peer_count(e, h) < PEERS
}

// ---------------------------------------------------------------- versions

#[tactic(auto, unfolding(history::specs::Version::is_held))]
fn pair_held(e: &[u8], h: usize, k: Pair, fit: bool) -> bool
    requires { (h * 256 ≤ length e.now) × (h ≤ EDITS) × (fit ≡ true → (t : List ℕ) → edits_fit [] (held h e.now t) ≡ true) }
    ensures { (t : List ℕ) → result ≡ is_held (held h e.now t) (to_count k) }
{
    count_held(k, count_for(e, h, k.peer, fit))
}

#[tactic(auto, using(crate::proofs::VersionLaws::each))]
fn pairs_held(e: &[u8], h: usize, v: &[u8], m: usize, fit: bool) -> bool
    requires { (h * 256 ≤ length e.now) × (h ≤ EDITS) × (m * 12 ≤ length v.now) × (fit ≡ true → (t : List ℕ) → edits_fit [] (held h e.now t) ≡ true) }
    ensures { (t : List ℕ) → result ≡ every (is_held (held h e.now t)) (pairs m v.now) }
{
    for i in 0..m {
        if !pair_held(e, h, get_pair(v, i), fit) {
            return false;
        }
    }
    true
}

// 6: a version of peers that rise and counts that are held. It is quicker if the edits are known to fit.
#[tactic(auto, unfolding(history::specs::Version::named))]
fn named_by(e: &[u8], h: usize, v: &[u8], m: usize, fit: bool) -> bool
    requires { (h * 256 ≤ length e.now) × (h ≤ EDITS) × (m * 12 ≤ length v.now) × (fit ≡ true → (t : List ℕ) → edits_fit [] (held h e.now t) ≡ true) }
    ensures { (t : List ℕ) → result ≡ named (held h e.now t) (pairs m v.now) }
{
    rising(v, m) && pairs_held(e, h, v, m, fit)
}

pub fn named(e: &[u8], h: usize, v: &[u8], m: usize) -> bool
    requires { (h * 256 ≤ length e.now) × (h ≤ EDITS) × (m * 12 ≤ length v.now) }
    ensures { (t : List ℕ) → result ≡ named (held h e.now t) (pairs m v.now) }
{
    named_by(e, h, v, m, false)
}

// Whether a version that covers the first unit of an edit covers all of them, where it is a delete.
fn covers_act(v: &[u8], m: usize, act: Does, id: Id) -> bool
    requires { m * 12 ≤ length v.now }
    ensures { result ≡ whole_act (to_act act) (pairs m v.now) id }
{
    match act {
        Does::Insert(_, _) => true,
        Does::Delete(n, _, _) => at_most(end_of(id, n), count_of(v, m, id.peer)),
    }
}

// Whether a version covers the context of a row. More pairs than there is room for say nothing.
#[tactic(auto, using(crate::proofs::HeldLaws::context_is))]
fn covers_context(row: &[u8], v: &[u8], m: usize) -> bool
    requires { (256 ≤ length row.now) × (m * 12 ≤ length v.now) }
    ensures { result ≡ within (context_in row.now) (pairs m v.now) }
{
    let k = get_pairs(row) as usize;
    k > PEERS || version::within(&row[64..], k, v, m)
}

// Whether the edit in a row, where a version covers it even in part, has its context covered, and is covered whole if it is a delete.
#[tactic(auto, unfolding(history::specs::Version::closed_for))]
fn closed_row(row: &[u8], v: &[u8], m: usize) -> bool
    requires { (256 ≤ length row.now) × (m * 12 ≤ length v.now) }
    ensures { result ≡ closed_for (pairs m v.now) (edit_in row.now) }
{
    let x = get_head(row);
    !below(v, m, x.id) || (covers_context(row, v, m) && covers_act(v, m, x.act, x.id))
}

// 7: every edit that a version covers has its context covered too, and no delete is covered in part.
#[tactic(auto, using(crate::proofs::HeldLaws::closes))]
pub fn closed(e: &[u8], h: usize, v: &[u8], m: usize) -> bool
    requires { (h * 256 ≤ length e.now) × (h ≤ EDITS) × (m * 12 ≤ length v.now) }
    ensures { (t : List ℕ) → result ≡ closed (held h e.now t) (pairs m v.now) }
{
    for i in 0..h {
        if !closed_row(&e[i * 256..], v, m) {
            return false;
        }
    }
    true
}

// The same where a version covers more of the peer after the edit: then what the peer did next decides.
#[tactic(auto, unfolding(crate::specs::Last::last_for, crate::specs::Last::past))]
fn last_row(row: &[u8], v: &[u8], m: usize) -> bool
    requires { (256 ≤ length row.now) × (m * 12 ≤ length v.now) }
    ensures { result ≡ last_for (pairs m v.now) (edit_in row.now) }
{
    let x = get_head(row);
    let end = end_of(x.id, size_of(x.act));
    less_than(end, count_of(v, m, x.id.peer)) || closed_row(row, v, m)
}

#[tactic(auto, using(crate::proofs::HeldLaws::lasts))]
fn closed_last(e: &[u8], h: usize, v: &[u8], m: usize) -> bool
    requires { (h * 256 ≤ length e.now) × (h ≤ EDITS) × (m * 12 ≤ length v.now) }
    ensures { (t : List ℕ) → result ≡ closed_last (held h e.now t) (pairs m v.now) }
{
    for i in 0..h {
        if !last_row(&e[i * 256..], v, m) {
            return false;
        }
    }
    true
}

// 7 of a version that is named. Where the edits are known to fit, few contexts are read.
#[tactic(auto, using(crate::proofs::LastLaws::closed_last_lem))]
fn named_closed(e: &[u8], h: usize, v: &[u8], m: usize, fit: bool) -> bool
    requires { (h * 256 ≤ length e.now) × (h ≤ EDITS) × (m * 12 ≤ length v.now) × ((t : List ℕ) → named (held h e.now t) (pairs m v.now) ≡ true) × (fit ≡ true → (t : List ℕ) → edits_fit [] (held h e.now t) ≡ true) }
    ensures { (t : List ℕ) → result ≡ closed (held h e.now t) (pairs m v.now) }
{
    if fit {
        closed_last(e, h, v, m)
    } else {
        closed(e, h, v, m)
    }
}

// 6 or 7: whether a version can be shown.
#[tactic(auto, unfolding(history::specs::Version::version_code))]
pub fn version_code(e: &[u8], h: usize, v: &[u8], m: usize) -> Result<(), Refusal>
    requires { (h * 256 ≤ length e.now) × (h ≤ EDITS) × (m * 12 ≤ length v.now) }
    ensures { (t : List ℕ) → code_of result ≡ version_code (held h e.now t) (pairs m v.now) }
{
    if !named(e, h, v, m) {
        return Err(Refusal::Version);
    }
    if !closed(e, h, v, m) {
        return Err(Refusal::NotClosed);
    }
    Ok(())
}

// ---------------------------------------------------------------- an edit

// 6 and 7 of an edit whose context is v: it holds exactly the peer's own earlier counters.
#[tactic(auto, using(crate::proofs::HeldLaws::eq_z_sym), unfolding(crate::specs::Refused::context_code))]
fn pairs_code(e: &[u8], h: usize, v: &[u8], m: usize, id: Id, fit: bool) -> Result<(), Refusal>
    requires { (h * 256 ≤ length e.now) × (h ≤ EDITS) × (m * 12 ≤ length v.now) × (fit ≡ true → (t : List ℕ) → edits_fit [] (held h e.now t) ≡ true) }
    ensures { (t : List ℕ) → code_of result ≡ context_code (held h e.now t) (pairs m v.now) id }
{
    if !named_by(e, h, v, m, fit) {
        return Err(Refusal::Version);
    }
    let own = u64::from(count_of(v, m, id.peer));
    if !counter_is(id, own) || !named_closed(e, h, v, m, fit) {
        return Err(Refusal::NotClosed);
    }
    Ok(())
}

#[tactic(auto, using(crate::proofs::HeldLaws::contexts))]
fn context_code(e: &[u8], h: usize, row: &[u8], id: Id, fit: bool) -> Result<(), Refusal>
    requires { (h * 256 ≤ length e.now) × (h ≤ EDITS) × (256 ≤ length row.now) × (fit ≡ true → (t : List ℕ) → edits_fit [] (held h e.now t) ≡ true) }
    ensures { (t : List ℕ) → code_of result ≡ context_code (held h e.now t) (context_in row.now) id }
{
    let k = get_pairs(row) as usize;
    if PEERS < k {
        return Err(Refusal::Version);
    }
    pairs_code(e, h, &row[64..], k, id, fit)
}

// 1, 2, 4, 5, 6 or 7: what the edits held say of the edit in a row. It is quicker if they are known to fit.
#[tactic(auto, using(crate::proofs::HeldLaws::eq_z_sym), unfolding(history::specs::Valid::edit_code, history::specs::Valid::own_count, crate::specs::Refused::act_code, crate::specs::Refused::context_code))]
fn row_code(e: &[u8], h: usize, row: &[u8], fit: bool) -> Result<(), Refusal>
    requires { (h * 256 ≤ length e.now) × (h ≤ EDITS) × (256 ≤ length row.now) × (fit ≡ true → (t : List ℕ) → edits_fit [] (held h e.now t) ≡ true) }
    ensures { (t : List ℕ) → code_of result ≡ edit_code (held h e.now t) (edit_in row.now) }
{
    let x = get_head(row);
    act_code(x.id, x.act)?;
    if !peer_fits(e, h, x.id.peer) {
        return Err(Refusal::Peers);
    }
    if !counter_is(x.id, held_count(e, h, x.id.peer)) {
        return Err(Refusal::Counter);
    }
    context_code(e, h, row, x.id, fit)
}

// The same for any edits.
pub fn edit_code(e: &[u8], h: usize, row: &[u8]) -> Result<(), Refusal>
    requires { (h * 256 ≤ length e.now) × (h ≤ EDITS) × (256 ≤ length row.now) }
    ensures { (t : List ℕ) → code_of result ≡ edit_code (held h e.now t) (edit_in row.now) }
{
    row_code(e, h, row, false)
}

// The same for edits that fit: asked of a history that is well formed.
pub fn fit_code(e: &[u8], h: usize, row: &[u8]) -> Result<(), Refusal>
    requires { (h * 256 ≤ length e.now) × (h ≤ EDITS) × (256 ≤ length row.now) × ((t : List ℕ) → edits_fit [] (held h e.now t) ≡ true) }
    ensures { (t : List ℕ) → code_of result ≡ edit_code (held h e.now t) (edit_in row.now) }
{
    row_code(e, h, row, true)
}

// Whether no edit is refused by those before it.
#[tactic(auto, using(crate::proofs::HeldLaws::fits))]
pub fn edits_fit(e: &[u8], h: usize) -> bool
    requires { (h * 256 ≤ length e.now) × (h ≤ EDITS) }
    ensures { (t : List ℕ) → result ≡ edits_fit [] (held h e.now t) }
{
    for i in 0..h {
        if fit_code(e, i, &e[i * 256..]).is_err() {
            return false;
        }
    }
    true
}
