// Versions in lent bytes: m pairs of a peer and a count. The rows are the caller's to know, so each function asks that they lie within the bytes.
ghost use Rattle.std.specs.Prelude.{◌≡◌, ◌*◌, ◌≤◌, pos, length, nat_le};
ghost use Rattle.std.specs.Int.Signed.{lt_z};
ghost use Rattle.history.specs.Version.{number, count_of, below, in_version, rising, within};
ghost use Rattle.tracker.specs.Rows.{pairs};

use crate::row::{Pair, get_pair};
use span::ids::{Id, UNKNOWN_PEER};
use span::status::counter_of;

// A pair's count as a number; below zero it is none.
pub fn number_of(k: Pair) -> u32
    ensures { result ≡ number k.many }
{
    counter_of(k.many).unwrap_or(0)
}

// A peer's count in a version.
#[tactic(auto, using(crate::proofs::VersionLaws::counts))]
pub fn count_of(v: &[u8], m: usize, peer: u64) -> u32
    requires { m * 12 ≤ length v.now }
    ensures { result ≡ count_of (pairs m v.now) peer }
{
    for i in 0..m {
        let k = get_pair(v, i);
        if k.peer == peer {
            return number_of(k);
        }
    }
    0
}

// Whether an id's counter is below a count.
fn counter_below(id: Id, count: u32) -> bool
    ensures { result ≡ lt_z id.counter (pos count) }
{
    i64::from(id.counter) < i64::from(count)
}

// Whether an id's counter is below its peer's count.
#[tactic(auto, unfolding(history::specs::Version::below))]
pub fn below(v: &[u8], m: usize, id: Id) -> bool
    requires { m * 12 ≤ length v.now }
    ensures { result ≡ below (pairs m v.now) id }
{
    counter_below(id, count_of(v, m, id.peer))
}

// Whether a unit is in a version; the placeholder's are in every one.
#[tactic(auto, unfolding(history::specs::Version::in_version))]
pub fn in_version(v: &[u8], m: usize, id: Id) -> bool
    requires { m * 12 ≤ length v.now }
    ensures { result ≡ in_version (pairs m v.now) id }
{
    id.peer == UNKNOWN_PEER || below(v, m, id)
}

// Whether the peers rise strictly.
#[tactic(auto, using(crate::proofs::VersionLaws::rises))]
pub fn rising(v: &[u8], m: usize) -> bool
    requires { m * 12 ≤ length v.now }
    ensures { result ≡ rising (pairs m v.now) }
{
    for i in 1..m {
        if get_pair(v, i).peer <= get_pair(v, i - 1).peer {
            return false;
        }
    }
    true
}

// Whether a version covers a pair.
fn covers_pair(v: &[u8], m: usize, k: Pair) -> bool
    requires { m * 12 ≤ length v.now }
    ensures { result ≡ nat_le (number k.many) (count_of (pairs m v.now) k.peer) }
{
    number_of(k) <= count_of(v, m, k.peer)
}

// Whether the version v covers the version c.
#[tactic(auto, using(crate::proofs::VersionLaws::covers))]
pub fn within(c: &[u8], k: usize, v: &[u8], m: usize) -> bool
    requires { (k * 12 ≤ length c.now) × (m * 12 ≤ length v.now) }
    ensures { result ≡ within (pairs k c.now) (pairs m v.now) }
{
    for i in 0..k {
        if !covers_pair(v, m, get_pair(c, i)) {
            return false;
        }
    }
    true
}
