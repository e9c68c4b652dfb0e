// The numbers of a line.
ghost use Rattle.std.specs.Prelude.{◌≡◌};
ghost use Rattle.span_replay.specs.Numbers.{number_of};

use text::numbers::{decimal, signed};

// A whole number; one below zero is its 32 bits.
fn number(word: &[u8]) -> Option<u64>
    ensures { result ≡ number_of word.now }
{
    match signed(word, i32::MAX as u32) {
        Some(n) => Some(n.cast_unsigned() % 4294967296),
        None => decimal(word, u64::MAX),
    }
}

// Puts the numbers among the words of the line into x, as many as it holds, and answers how many there are. Other words are for readers.
pub fn numbers(line: &[u8], x: &mut [u64]) -> usize {
    let mut n: usize = 0;
    for word in line.split(|b| *b == b' ') {
        if let Some(v) = number(word) {
            if n < x.len() {
                x[n] = v;
            }
            n = n.saturating_add(1);
        }
    }
    n
}
