// Little-endian numbers at an offset of a lent byte slice: the alphabet in which every store and history is written.
//
// `bytes_at` reads the bytes of a number and `put` writes them; what they say is std's `from_le_bytes` and `to_le_bytes`. The
// definitions above speak of `le`, the number that bytes say, of `bytes_of`, the bytes of a number, and of `put at bytes s`: the
// slice with those bytes in the place of as many from `at` on, and every other byte as it was. proofs/Bytes ties them to std's
// words, proofs/Moves `put` to `copy_within`; all that is known of `put` stands in proofs/Puts. The offsets are the caller's to
// know: each function asks that its bytes lie within the slice, and no public entry of the product is among them.
#![tactic(auto)]

ghost use Rattle.std.specs.Prelude.{◌≡◌, ◌+◌, ◌*◌, ◌≤◌, flat_map, length, take, drop};
ghost use Rattle.words.specs.Le.{put};

// The N bytes from `at` on.
pub fn bytes_at<const N: usize>(s: &[u8], at: usize) -> [u8; N]
    requires { at + N ≤ length s.now }
    ensures { result ≡ take N (drop at s.now) }
{
    let Some(bytes) = s[at..at + N].first_chunk::<N>() else {
        unreachable!()
    };
    *bytes
}

// Writes the bytes from `at` on.
#[tactic(auto, unfolding(crate::specs::Le::put))]
pub fn put<const N: usize>(s: &mut [u8], at: usize, bytes: [u8; N])
    requires { at + N ≤ length s.old }
    ensures { s.new ≡ put at bytes.entry s.old }
{
    s[at..at + N].copy_from_slice(&bytes);
}

// Writes runs of N bytes, one after the other: one call in the place of many, for functions that write a whole row.
#[tactic(auto, unfolding(crate::specs::Le::put))]
pub fn put_all<const N: usize, const M: usize>(s: &mut [u8], at: usize, runs: [[u8; N]; M])
    requires { at + M * N ≤ length s.old }
    ensures { s.new ≡ put at (flat_map (λ run. run) runs.entry) s.old }
{
    let bytes = runs.as_flattened();
    s[at..at + bytes.len()].copy_from_slice(bytes);
}
