// A version or context as a word: `-`, or pairs PEER:COUNT with commas between, in the order written.
ghost use Rattle.std.specs.Prelude.{◌≡◌};
ghost use Rattle.script.specs.Version.{pair_count, pair_of, is_version};

use crate::field::id_of;
use span::ids::Id;
use text::parts::{after, before, part, parts};

// How many pairs the word has, where it says a version.
#[tactic(auto, unfolding(crate::specs::Version::pair_count))]
pub fn pairs(w: &[u8]) -> usize
    ensures { result ≡ pair_count w.now }
{
    if w == b"-".as_slice() {
        0
    } else {
        parts(w, b',')
    }
}

// Pair i: the count stands as the counter of an id.
#[tactic(auto, unfolding(crate::specs::Version::pair_of))]
pub fn pair(w: &[u8], i: usize) -> Option<Id>
    ensures { result ≡ pair_of w.now i }
{
    let p = part(w, b',', i);
    id_of(before(p, b':'), after(p, b':'))
}

// Whether the word says a version: every pair is one.
#[tactic(auto, unfolding(crate::specs::Version::is_version))]
pub fn is_version(w: &[u8]) -> bool
    ensures { result ≡ is_version w.now }
{
    (0..pairs(w)).all(|i| pair(w, i).is_some())
}
