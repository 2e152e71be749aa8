// The numbers that a word can write.
ghost use Rattle.std.specs.Prelude.{◌≡◌, ◌≤◌};
ghost use Rattle.text.specs.Numerals.{numeral_of, whole_of, decimal_of};

use crate::cuts::cut;

// What one unit in the last of `places` decimal places is worth in millionths.
const WORTH: [u64; 7] = [1_000_000, 100_000, 10_000, 1_000, 100, 10, 1];

// The value of 1 to `most` digits.
fn digits(word: &[u8], most: usize) -> Option<u32>
    requires { most ≤ 7 }
    ensures { result ≡ numeral_of most word.now }
{
    if word.is_empty() || word.len() > most {
        return None;
    }
    // not by `parse`, which takes a sign and wants a `str`
    let mut n = 0;
    for b in word {
        match b {
            b'0'..=b'9' => n = n * 10 + u32::from(*b - b'0'),
            _ => return None,
        }
    }
    Some(n)
}

// A whole number: 1 to 7 digits.
pub fn whole(word: &[u8]) -> Option<u32>
    ensures { result ≡ whole_of word.now }
{
    digits(word, 7)
}

// A decimal, in millionths: 1 to 4 digits, then perhaps a point and 1 to 6 digits.
pub fn decimal(word: &[u8]) -> Option<u64>
    ensures { result ≡ decimal_of word.now }
{
    let (front, back) = cut(word, b'.');
    let units = u64::from(digits(front, 4)?) * 1_000_000;
    match back {
        None => Some(units),
        Some(fraction) => Some(units + u64::from(digits(fraction, 6)?) * WORTH[fraction.len()]),
    }
}
