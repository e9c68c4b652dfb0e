// A version's word as columns: its peers, and its counts by their bits.
ghost use Rattle.std.specs.Prelude.{◌≡◌, take, slice_set};
ghost use Rattle.script.specs.Version.{pair_of};
ghost use Rattle.session.specs.Columns.{peer_put, count_put, peers_put, counts_put, pairs_taken, peers_in, counts_in, word_peers, word_counts};

use crate::front::front;
use script::version::{pair, pairs};

// The pairs taken of a word: more than 16 are refused, whatever they are.
const MOST: usize = 32;

// The first `pairs` of each column are those of the word.
#[derive(Clone, Copy, Debug, PartialEq, Eq)]
pub struct VersionColumns {
    peers: [u64; MOST],
    counts: [u32; MOST],
    pairs: usize,
}

// At place i, where the column has it.
fn put<T: Copy>(column: &mut [T], i: usize, x: T)
    ensures { column.new ≡ slice_set column.old i x }
{
    if i < column.len() {
        column[i] = x;
    }
}

#[tactic(auto, unfolding(crate::specs::Columns::peer_put, crate::specs::Columns::count_put))]
fn put_pair(w: &[u8], i: usize, peers: &mut [u64], counts: &mut [u32])
    ensures { (peers.new ≡ peer_put (pair_of w.now i) i peers.old) × (counts.new ≡ count_put (pair_of w.now i) i counts.old) }
{
    if let Some(id) = pair(w, i) {
        put(peers, i, id.peer);
        put(counts, i, store::counter_bits(id));
    }
}

fn put_pairs(w: &[u8], n: usize, peers: &mut [u64], counts: &mut [u32])
    ensures { (peers.new ≡ peers_put w.now 0 n peers.old) × (counts.new ≡ counts_put w.now 0 n counts.old) }
{
    for i in 0..n {
        put_pair(w, i, peers, counts);
    }
}

// Puts the word's pairs at the fronts of the columns, and answers how many they are.
pub fn columns(w: &[u8], peers: &mut [u64], counts: &mut [u32]) -> usize
    ensures { (result ≡ pairs_taken w.now) × (peers.new ≡ peers_in w.now peers.old) × (counts.new ≡ counts_in w.now counts.old) }
{
    let n = pairs(w).min(MOST);
    put_pairs(w, n, peers, counts);
    n
}

impl VersionColumns {
    // The pairs of the word.
    pub fn new(w: &[u8]) -> Self
        ensures peers { take result.pairs result.peers ≡ word_peers w.now }
        ensures counts { take result.pairs result.counts ≡ word_counts w.now }
    {
        let mut peers = [0; MOST];
        let mut counts = [0; MOST];
        let pairs = columns(w, &mut peers, &mut counts);
        Self {
            peers,
            counts,
            pairs,
        }
    }

    pub fn peers(&self) -> &[u64]
        ensures { result.now ≡ take self.now.pairs self.now.peers }
    {
        front(&self.peers, self.pairs)
    }

    pub fn counts(&self) -> &[u32]
        ensures { result.now ≡ take self.now.pairs self.now.counts }
    {
        front(&self.counts, self.pairs)
    }
}
