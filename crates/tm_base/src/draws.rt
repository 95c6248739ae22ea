ghost use Rattle.std.specs.Prelude.{◌≡◌, ◌<◌};
ghost use Rattle.tm_base.specs.Draws.{next_draw, place_of};

/// What the generator multiplies a number by: Knuth's multiplier for MMIX.
const MULTIPLIER: u64 = 6_364_136_223_846_793_005;

/// What the generator adds then: Knuth's increment for MMIX.
const INCREMENT: u64 = 1_442_695_040_888_963_407;

/// The number that is drawn after this one.
pub fn next_draw(draw: u64) -> u64
    ensures { result ≡ next_draw draw }
{
    draw.wrapping_mul(MULTIPLIER).wrapping_add(INCREMENT)
}

/// The place that the upper bits of the number pick among so many, from 0.
pub fn place_of(draw: u64, count: u64) -> u64
    requires { 0 < count }
    ensures value { result ≡ place_of draw count }
    ensures within { result < count }
{
    (draw >> 33) % count
}
