#![tactic(auto)]
// What a walk over the outputs that a fault's site reaches answers, and how wide each output is.
ghost use Rattle.std.specs.Prelude.{◌≡◌, ◌≤◌, ◌<◌};
ghost use Rattle.walk.specs.Walk.{width_of};

use chip::Reached;

// What a walk answers: the output, the pattern's number and the tries of the first hit, or the tries without one.
#[derive(Drop)]
pub enum Walk {
    Hit(usize, usize, usize),
    Missed(usize),
}

// How many of the first b blocks reach output z.
pub fn width_of(b: usize, z: usize, reached: &Reached) -> usize
    requires { (b ≤ 4160) × (z < 64) }
    ensures { result ≡ width_of b reached.now z }
{
    reached[..b]
        .iter()
        .filter(|outs| words::has_bit(**outs, z))
        .count()
}
