// Bytes and numbers put into a lent buffer at a place, as many as fit. The answer is the place after them: just past the buffer's end where they did not fit
// whole, and nothing fits there, so a row of puts is one put of all their bytes (`puts_then`).
ghost use Rattle.io.specs.Digits.{last_digits};
ghost use Rattle.text.specs.Numbers.{numeral, int_text};
ghost use Rattle.text.specs.Puts.{Puts};

#[tactic(auto, using(crate::proofs::PutsLaws::copies))]
pub fn put(out: &mut [u8], at: usize, w: &[u8]) -> usize
    ensures { Puts at w.now out.old result out.new }
{
    let room = out.len();
    if room < at {
        return room + 1;
    }
    let left = room - at;
    if left < w.len() {
        out[at..].copy_from_slice(&w[..left]);
        return room + 1;
    }
    let end = at + w.len();
    out[at..end].copy_from_slice(w);
    end
}

// The number's digits, with no zero in front.
#[tactic(auto, using(crate::proofs::NumeralLaws::fewest_numeral))]
pub fn put_decimal(out: &mut [u8], at: usize, n: u64) -> usize
    ensures { Puts at (numeral n) out.old result out.new }
{
    let mut text = [0u8; 20];
    let k = io::decimal(n, &mut text);
    put(out, at, &text[..k])
}

// The number's digits, with a minus sign where it is below zero.
#[tactic(auto, using(crate::proofs::PutsLaws::puts, crate::proofs::IntLaws::int_below, crate::proofs::IntLaws::int_above))]
pub fn put_signed(out: &mut [u8], at: usize, n: i32) -> usize
    ensures { Puts at (int_text n) out.old result out.new }
{
    let at = if n < 0 { put(out, at, b"-") } else { at };
    put_decimal(out, at, u64::from(n.unsigned_abs()))
}

// Sixteen digits, in lower case.
pub fn put_hex(out: &mut [u8], at: usize, n: u64) -> usize
    ensures { Puts at (last_digits 16 16 n) out.old result out.new }
{
    let mut text = [0u8; 16];
    let k = io::hex(n, 16, &mut text);
    put(out, at, &text[..k])
}
