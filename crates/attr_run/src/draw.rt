//! Pseudorandom draws for made operations: a linear congruential step.

ghost use Rattle.std.specs.Prelude.{◌≡◌, ◌<◌};
ghost use Rattle.attr_run.specs.Made.{next_draw};

/// Returns the draw after a draw, or the first draw after the seed.
pub fn next_draw(x: u32) -> u32
    ensures value { result ≡ next_draw x }
    ensures small { result < 65536 }
{
    ((u64::from(x) * 25_173 + 13_849) % 65_536) as u32
}
