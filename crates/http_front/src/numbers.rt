// Numbers in decimal digits.
ghost use Rattle.std.specs.Prelude.{◌≡◌, ◌≤◌};
ghost use Rattle.std.specs.List.{list_all};
ghost use Rattle.std.specs.Char.{is_ascii_digit};
ghost use Rattle.http_front.specs.Numbers.{are_digits, number_of, short_number};

use std::str::from_utf8;

// At least one digit, and at most so many.
fn are_digits(bytes: &[u8], most: usize) -> bool
    ensures { result ≡ are_digits most bytes.now }
{
    !bytes.is_empty() && (bytes.len() <= most && all_digits(bytes))
}

fn all_digits(bytes: &[u8]) -> bool
    ensures { result ≡ list_all is_ascii_digit bytes.now }
{
    for byte in bytes {
        if !byte.is_ascii_digit() {
            return false;
        }
    }
    true
}

/// The number that at most so many digits write.
#[tactic(auto, unfolding(crate::specs::Numbers::number_of), using(crate::proofs::NumberLemmas::parsed, crate::proofs::NumberLemmas::digits_are_utf8))]
pub fn number_of(bytes: &[u8], most: usize) -> Option<u64>
    requires { most ≤ 19 }
    ensures { result ≡ number_of most bytes.now }
{
    if !are_digits(bytes, most) {
        return None;
    }
    match from_utf8(bytes) {
        Ok(text) => text.parse::<u64>().ok(),
        Err(_) => None,
    }
}

/// The number of a path or a form.
#[tactic(auto, unfolding(crate::specs::Numbers::short_number))]
pub fn short_number(bytes: &[u8]) -> Option<u32>
    ensures { result ≡ short_number bytes.now }
{
    match number_of(bytes, 10) {
        Some(number) if number <= u64::from(u32::MAX) => Some(number as u32),
        _ => None,
    }
}
