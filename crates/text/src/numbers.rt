// Decimal numbers as text. Leading zeros are taken; a minus sign only where a number is signed.
ghost use Rattle.std.specs.Prelude.{◌≡◌};
ghost use Rattle.text.specs.Numbers.{decimal_of, int_of};

// The number that the text says, where it is not past most.
#[tactic(auto, using(crate::proofs::NumbersLaws::digits), unfolding(crate::specs::Numbers::is_digit))]
pub fn decimal(s: &[u8], most: u64) -> Option<u64>
    ensures { result ≡ decimal_of most s.now }
{
    if s.is_empty() {
        return None;
    }
    let mut value: u64 = 0;
    for byte in s {
        if !byte.is_ascii_digit() {
            return None;
        }
        let digit = u64::from(*byte - b'0');
        value = value.checked_mul(10)?.checked_add(digit)?;
    }
    if value <= most { Some(value) } else { None }
}

// The number from -(most + 1) to most that the text says.
#[tactic(auto, using(crate::proofs::NumbersLaws::decimal_most, crate::proofs::NumbersLaws::wide_fits, crate::proofs::NumbersLaws::minus_fits))]
pub fn signed(s: &[u8], most: u32) -> Option<i64>
    ensures { result ≡ int_of most s.now }
{
    if let Some(digits) = s.strip_prefix(b"-") {
        let n = decimal(digits, u64::from(most) + 1)?;
        Some(-(n as i64))
    } else {
        let n = decimal(s, u64::from(most))?;
        Some(n as i64)
    }
}
