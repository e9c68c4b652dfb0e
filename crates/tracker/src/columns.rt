// Versions in columns, as callers hand them in, and in pairs of 12 bytes. The buffers are the callers' own, so their lengths are asked.
ghost use Rattle.std.specs.Prelude.{◌≡◌, [], ◌∷◌, ◌++◌, ◌+◌, ◌*◌, ◌≤◌, length};
ghost use Rattle.tracker.specs.Rows.{pairs, to_edit, edit_in};
ghost use Rattle.tracker.specs.Entries.{zipped, short_of, version_in};

use crate::row::{Head, put_head};
use store::limits::PEERS;

// Pair i of a version: a peer, and its count by its bits. The pairs before it stay.
fn put_column(v: &mut [u8], i: usize, peer: u64, bits: u32)
    requires { i * 12 + 12 ≤ length v.old }
    ensures { pairs (i + 1) v.new ≡ pairs i v.old ++ zipped (peer ∷ []) (bits ∷ []) }
{
    let at = i * 12;
    words::put(v, at, peer.to_le_bytes());
    words::put(v, at + 8, bits.to_le_bytes());
}

// The version of the columns as pairs. The answer is their number, and one more than the peers that a history can have where it is no version.
pub fn put_version(v: &mut [u8], peers: &[u64], counts: &[u32]) -> usize
    requires { 192 ≤ length v.old }
    ensures { (version_in result v.new ≡ short_of peers.now counts.now) × (result ≤ 17) }
{
    let m = peers.len();
    if PEERS < m || counts.len() != m {
        return PEERS + 1;
    }
    for i in 0..m {
        put_column(v, i, peers[i], counts[i]);
    }
    m
}

// An edit handed in: its row, with the version of the columns as its context. It has no target ranges yet.
pub fn put_edit(row: &mut [u8], x: Head, peers: &[u64], counts: &[u32])
    requires { 256 ≤ length row.old }
    ensures { edit_in row.new ≡ to_edit x (short_of peers.now counts.now) }
{
    let m = put_version(&mut row[64..], peers, counts);
    put_head(row, 0, x, 0, m as u32);
}
