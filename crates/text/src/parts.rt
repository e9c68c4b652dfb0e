// A text cut at a byte: a line's words at blanks, a version's pairs at commas, an id at its dot.
ghost use Rattle.std.specs.Prelude.{◌≡◌, ◌==◌, length, take};
ghost use Rattle.std.specs.List.{position};
ghost use Rattle.text.specs.Parts as spec;
ghost use Rattle.text.specs.Parts.{kept, front, trimmed};

// The index of the first b.
pub fn find(s: &[u8], b: u8) -> Option<usize>
    ensures { result ≡ position (λ x. x == b) s.now }
{
    s.iter().position(|x| *x == b)
}

// What stands before the first b: all of it, where there is none.
#[tactic(auto, using(crate::proofs::PartsLaws::found_in, crate::proofs::PartsLaws::found_none))]
pub fn before(s: &[u8], b: u8) -> &[u8]
    ensures { result.now ≡ spec.before b s.now }
{
    match find(s, b) {
        Some(k) => &s[..k],
        None => s,
    }
}

// What stands after the first b: nothing, where there is none.
pub fn after(s: &[u8], b: u8) -> &[u8]
    ensures { result.now ≡ spec.after b s.now }
{
    match find(s, b) {
        Some(k) => &s[k + 1..],
        None => &[],
    }
}

// All from part i on, of the parts between b's counted from 0: nothing, where there are not so many.
#[tactic(auto, using(crate::proofs::PartsLaws::rest_next, crate::proofs::PartsLaws::rest_here))]
pub fn rest(s: &[u8], b: u8, i: usize) -> &[u8]
    ensures { result.now ≡ spec.rest b i s.now }
{
    let mut rest = s;
    for _ in 0..i {
        rest = after(rest, b);
    }
    rest
}

// Part i alone.
pub fn part(s: &[u8], b: u8, i: usize) -> &[u8]
    ensures { result.now ≡ spec.part b i s.now }
{
    before(rest(s, b, i), b)
}

// How many parts there are: one more than b's.
#[tactic(auto, using(crate::proofs::PartsLaws::parts_counted))]
pub fn parts(s: &[u8], b: u8) -> usize
    ensures { result ≡ spec.parts b s.now }
{
    1 + s.iter().filter(|x| **x == b).count()
}

// s without the b's at its start.
#[tactic(auto, using(crate::proofs::PartsLaws::front_other, crate::proofs::PartsLaws::front_end))]
fn without_front(s: &[u8], b: u8) -> &[u8]
    ensures { result.now ≡ front b s.now }
{
    let mut text = s;
    while let [first, rest @ ..] = text {
        if *first != b {
            break;
        }
        text = rest;
    }
    text
}

// s without the b's at its end.
#[tactic(auto, using(crate::proofs::PartsLaws::kept_end, crate::proofs::PartsLaws::last_other))]
fn without_back(s: &[u8], b: u8) -> &[u8]
    ensures { result.now ≡ take (kept b s.now (length s.now)) s.now }
{
    let mut text = s;
    while let [rest @ .., last] = text {
        if *last != b {
            break;
        }
        text = rest;
    }
    text
}

// s without the b's at both ends.
pub fn trim(s: &[u8], b: u8) -> &[u8]
    ensures { result.now ≡ trimmed b s.now }
{
    without_front(without_back(s, b), b)
}
