ghost use Rattle.std.specs.Prelude.{◌≡◌, ◌≢◌, ◌≤◌, ◌<◌, ◌-◌, ◌^◌, ℕ, MatchOption};
ghost use Rattle.std.specs.Int.{bit_at};
ghost use Rattle.tm_laws.specs.Counts.{bit};
ghost use Rattle.tm_joint.specs.Bits.{HasNoPlace, IsFirstPlace};

/// The set of the first places, which are so many.
pub fn first_places(count: u32) -> u64
    requires { count ≤ 64 }
    ensures { result ≡ 2 ^ count - 1 }
{
    if count == 64 {
        return u64::MAX;
    }
    (1 << count) - 1
}

/// The set with the place, or without it.
pub fn with_place(set: u64, place: u32, belongs: bool) -> u64
    requires { place < 64 }
    ensures same { bit_at result place ≡ bit belongs }
    ensures others { (i : ℕ) → i < 64 → i ≢ place → bit_at result i ≡ bit_at set i }
{
    if belongs {
        set | (1 << place)
    } else {
        set & !(1 << place)
    }
}

/// The first place of the set from this one on. `None` exactly where there is none.
pub fn first_place(set: u64, from: u32) -> Option<u32>
    requires { from ≤ 64 }
    ensures { MatchOption result (HasNoPlace set from) (IsFirstPlace set from) }
{
    if from == 64 {
        return None;
    }
    let above = set >> from;
    if above == 0 {
        return None;
    }
    Some(from + above.trailing_zeros())
}
