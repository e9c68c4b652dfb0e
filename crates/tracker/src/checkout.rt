// Checkout: the list put at a version.
ghost use Rattle.std.specs.Prelude.{◌≡◌, true, ◌≤◌, length};
ghost use Rattle.span.specs.Refusal.{code_of};
ghost use Rattle.store.specs.Header.{room};
ghost use Rattle.history.specs.Codes.{checkout_code};
ghost use Rattle.tracker.specs.Rows.{target_room, history_in, is_history};
ghost use Rattle.tracker.specs.Entries.{version_in, version_of, Leaves, checkout_number, checked_out};

use crate::check::check;
use crate::columns::put_version;
use crate::held::version_code;
use crate::row::edit_count;
use crate::seen::count_seen;
use crate::stand::stand;
use span::refusal::Refusal;
use store::header;
use store::limits::PEERS;

// Puts the list of a history at a version.
pub fn checkout(
    s: &mut [u8],
    t: &[u8],
    e: &[u8],
    peers: &[u64],
    counts: &[u32],
) -> Result<(), Refusal>
    ensures { Leaves (checkout_number s.old t.now e.now (version_of peers.now counts.now)) (checked_out s.old t.now e.now (version_of peers.now counts.now)) (code_of result) s.old t.now e.now s.new t.now e.now }
{
    if !check(s, t, e) {
        return Err(Refusal::Store);
    }
    let mut v = [0u8; 192];
    let m = put_version(&mut v, peers, counts);
    checkout_to(s, t, e, &v, m)
}

// The same of a version in pairs, where the history is well formed.
pub fn checkout_to(s: &mut [u8], t: &[u8], e: &[u8], v: &[u8], m: usize) -> Result<(), Refusal>
    requires { (is_history s.old t.now e.now ≡ true) × (192 ≤ length v.now) }
    ensures { Leaves (checkout_number s.old t.now e.now (version_in m v.now)) (checked_out s.old t.now e.now (version_in m v.now)) (code_of result) s.old t.now e.now s.new t.now e.now }
{
    if PEERS < m {
        return Err(Refusal::Version);
    }
    let h = edit_count(e) as usize;
    version_code(&e[64..], h, v, m)?;
    let n = header::count(s) as usize;
    let k = count_seen(&s[72..], n, &e[64..], h, t, v, m, v, m, false);
    if header::room(s) < k {
        return Err(Refusal::Room);
    }
    stand(s, n, k, &e[64..], h, t, v, m, v, m, false);
    Ok(())
}
