ghost use Rattle.std.specs.Prelude.{◌≡◌, ℕ, ◌+◌, ◌-◌, ◌*◌, ◌^◌, ◌≤◌, pos, neg_ℤ, ◌≤ℤ◌, true, MatchOption, IfSome, Some, option_map, option_and_then};
ghost use Rattle.tm_base.specs.Names.{is_digit};
ghost use Rattle.tm_lines.specs.Numerals.{begins_with_r, comparison_of, natural_of, number_of, register_of, unless_outside};

use tm_programs::Comparison;

/// The number that the word writes, where it writes one from `least` to `most`.
pub fn number(least: i64, most: i64, word: &[u8]) -> Option<i64>
    ensures value { result ≡ number_of least most word.now }
    ensures within { IfSome result (λ k. (least ≤ℤ k) × (k ≤ℤ most)) }
{
    match word {
        [b'-', digits @ ..] => negative(least, most, digits),
        digits => positive(least, most, digits),
    }
}

/// The register that the word names.
pub fn register(word: &[u8]) -> Option<u8>
    ensures { result ≡ register_of word.now }
{
    match word {
        [b'r', digit @ b'0'..=b'7'] => Some(*digit - b'0'),
        _ => None,
    }
}

/// Whether the word begins with `r`, and so is read as a register.
pub fn begins_with_r(word: &[u8]) -> bool
    ensures { result ≡ begins_with_r word.now }
{
    matches!(word, [b'r', ..])
}

/// The comparison with this sign.
pub fn comparison(word: &[u8]) -> Option<Comparison>
    ensures { result ≡ comparison_of word.now }
{
    match word {
        b"=" => Some(Comparison::Equal),
        b"!=" => Some(Comparison::NotEqual),
        b"<" => Some(Comparison::Less),
        b"<=" => Some(Comparison::AtMost),
        b">" => Some(Comparison::Greater),
        b">=" => Some(Comparison::AtLeast),
        _ => None,
    }
}

/// The number that the digits write, where it is from `least` to `most`.
fn positive(least: i64, most: i64, digits: &[u8]) -> Option<i64>
    ensures value { result ≡ option_and_then (unless_outside least most)
        (option_map pos (natural_of digits.now)) }
    ensures within { IfSome result (λ k. (least ≤ℤ k) × (k ≤ℤ most)) }
{
    let value = natural(digits)?;
    within(least, most, i128::from(value))
}

/// The number that the digits write after a `-`, where it is from `least` to `most`.
fn negative(least: i64, most: i64, digits: &[u8]) -> Option<i64>
    ensures value { result ≡ option_and_then (unless_outside least most)
        (option_map (λ n. neg_ℤ (pos n)) (natural_of digits.now)) }
    ensures within { IfSome result (λ k. (least ≤ℤ k) × (k ≤ℤ most)) }
{
    let value = natural(digits)?;
    within(least, most, -i128::from(value))
}

/// The number that one or more digits write. `None` where a byte is no digit, or the number is beyond 64
/// bits.
fn natural(digits: &[u8]) -> Option<u64>
    ensures { MatchOption result ((n : ℕ) → natural_of digits.now ≡ Some n → 2 ^ 64 ≤ n)
        (λ n. natural_of digits.now ≡ Some n) }
{
    if digits.is_empty() {
        return None;
    }
    let mut value = 0u64;
    for digit in digits {
        match with_digit(value, *digit) {
            None => return None,
            Some(more) => value = more,
        }
    }
    Some(value)
}

/// The number with one more digit behind it. `None` where the byte is no digit, or the number is beyond 64
/// bits.
fn with_digit(value: u64, byte: u8) -> Option<u64>
    ensures { MatchOption result (is_digit byte ≡ true → 2 ^ 64 ≤ 10 * value + (byte - 48))
        (λ n. (is_digit byte ≡ true) × (n ≡ 10 * value + (byte - 48))) }
{
    if !byte.is_ascii_digit() {
        return None;
    }
    value.checked_mul(10)?.checked_add(u64::from(byte - b'0'))
}

/// The value, where it is from `least` to `most`.
fn within(least: i64, most: i64, value: i128) -> Option<i64>
    ensures value { result ≡ unless_outside least most value }
    ensures within { IfSome result (λ k. (least ≤ℤ k) × (k ≤ℤ most)) }
{
    if i128::from(least) <= value && value <= i128::from(most) {
        Some(value as i64)
    } else {
        None
    }
}
