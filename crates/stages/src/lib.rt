#![tactic(auto)]
// What a group of outputs with the same blocks behind them is tried on, and the outputs left to the faults of a cell.
ghost use Rattle.std.specs.Prelude.{◌≡◌, ◌+◌, ◌≤◌, ◌<◌, length};
ghost use Rattle.stages.specs.Stage.{Covers};

// The outputs left to the faults of a cell: its net is a site, and its n pins those from another on.
// Open: further outputs: outputs too many cost work and no answer.
pub fn left_at(net: usize, pin: usize, n: usize, left: &[u64]) -> u64
    requires { (net < pin) × (pin + n ≤ 5184) × (length left.now ≡ 10368) }
    ensures { Covers net pin n left.now result }
{
    let own = left[2 * net] | left[2 * net + 1];
    left[2 * pin..2 * (pin + n)]
        .iter()
        .fold(own, |all, outs| all | outs)
}
