ghost use Rattle.std.specs.Prelude.{ℕ, ◌^◌, ◌<◌, ◌≤◌, MatchOption};
ghost use Rattle.tm_words.specs.Numbers.{IsNumber};

/// The number below 2^64 that the digits spell, if the text is digits of one.
pub(crate) fn value_of(number: &str) -> Option<u64>
    ensures { MatchOption result ((n : ℕ) → IsNumber number.now n → 2 ^ 64 ≤ n)
        (λ n. IsNumber number.now n × (n < 2 ^ 64)) }
{
    if number.starts_with('+') {
        return None;
    }
    number.parse::<u64>().ok()
}

/// The number below 2^32 that the digits spell, if the text is digits of one.
pub(crate) fn size_of(number: &str) -> Option<u32>
    ensures { MatchOption result ((n : ℕ) → IsNumber number.now n → 2 ^ 32 ≤ n)
        (λ n. IsNumber number.now n) }
{
    u32::try_from(value_of(number)?).ok()
}
