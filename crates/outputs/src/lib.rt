#![tactic(auto)]
// Words of outputs: those that each site reaches, those that are wide, those at which a fault is looked for, and those with the same blocks
// behind them; and the walk of a fault, from what was found.
ghost use Rattle.std.specs.Prelude.{◌≡◌, true, List, ℕ, ◌+◌, ◌≤◌, ◌<◌, length, get_or};
ghost use Rattle.chip.specs.Netlist.{Netlist, all_pins};
ghost use Rattle.chip.specs.Class.{blocks};
ghost use Rattle.chip.specs.Faults.{stuck};
ghost use Rattle.chip.specs.Search.{Tried};
ghost use Rattle.chip.specs.declared.Fault.{Fault};
ghost use Rattle.levels.specs.Levels.{ReachMasks};
ghost use Rattle.slots.specs.Slots.{rel_of};
ghost use Rattle.walk.specs.Walk.{out_of, width_of, TooWide, WalkIs};
ghost use Rattle.outputs.specs.Sites.{SiteMasks, Widths, WideWord, Started, size_of};
ghost use Rattle.outputs.specs.Groups.{Sofar, Joined, Alike, Parted};

use chip::{Nets, OutputWidths, PinWords, Reached};
use walk::Walk;

// The outputs that each site reaches: a pin those of its cone, a net those of the pins that name it.
// Open: entries past the sites, and the masks of no netlist: a table of 5,184 of which the sites are in use.
pub fn site_masks(base: usize, n: usize, nets: &Nets, cone: &PinWords, sites: &mut [u64])
    requires base_bound { (base ≤ 1088) × (n ≤ 4096) × ((p : ℕ) → p < n → get_or nets.now p 0 < base) }
    requires sites_len { (length sites.old ≡ 5184) × ((s : ℕ) → get_or sites.old s 0 ≡ 0) }
    ensures { (N : Netlist) → n ≡ all_pins N → base ≡ N.inputs + N.cells → ((p : ℕ) → N.net p ≡ get_or nets.now p 0) → ReachMasks N cone.now → SiteMasks N sites.new }
{
    for p in 0..n {
        sites[usize::from(nets[p])] |= cone[p];
        sites[base + p] = cone[p];
    }
}

// How many of the b blocks stand behind each of the o outputs.
// Open: entries past the outputs: a table of 64 of which the outputs are in use.
pub fn all_widths(o: usize, b: usize, reached: &Reached, widths: &mut [u16])
    requires { (o ≤ 64) × (b ≤ 4160) × (length widths.old ≡ 64) }
    ensures { Widths o b reached.now widths.new }
{
    for z in 0..o {
        widths[z] = walk::width_of(b, z, reached) as u16;
    }
}

// The outputs with more than 16 blocks behind them.
pub fn wide_outputs(o: usize, widths: &[u16]) -> u64
    requires { (o ≤ 64) × (length widths.now ≡ 64) }
    ensures { WideWord o widths.now result }
{
    let mut wides = 0;
    for (z, &w) in widths[..o].iter().enumerate() {
        if 16 < w {
            wides |= words::one_bit(z);
        }
    }
    wides
}

// The lowest of the o outputs of the word that is wide, or o.
// Open: the answer for a word that is not that of the wide outputs: that it is that is the caller's to know.
pub fn first_wide(o: usize, outs: u64, wides: u64) -> usize
    requires { o ≤ 64 }
    ensures { (b : ℕ) (reached widths : List ℕ) → Widths o b reached widths → WideWord o widths wides → TooWide o b outs reached result }
{
    let both = outs & wides;
    if both == 0 {
        return o;
    }
    words::lowest_bit(both)
}

// The outputs at which faults `from` up to `to` are looked for: those of their sites, or none if one of these is wide.
pub fn start(from: usize, to: usize, wides: u64, sites: &[u64], left: &mut [u64])
    requires { (from ≤ to) × (to ≤ 10368) × (length sites.now ≡ 5184) × (length left.old ≡ 10368) × ((f : ℕ) → get_or left.old f 0 ≡ 0) }
    ensures { Started from to wides sites.now left.new }
{
    for f in from..to {
        let mask = sites[f / 2];
        if mask & wides == 0 {
            left[f] = mask;
        }
    }
}

// The outputs that some of the first n words has.
pub fn left_all(n: usize, left: &[u64]) -> u64
    requires { n ≤ length left.now }
    ensures { Joined n left.now result }
{
    left[..n].iter().fold(0, |all, outs| all | outs)
}

// Those outputs of g that are in the word exactly if output z is.
fn part(g: u64, word: u64, z: usize) -> u64
    requires { z < 64 }
    ensures { Parted g word z result }
{
    if words::has_bit(word, z) {
        return g & word;
    }
    g & !word
}

// Outputs with the same of the b blocks behind them as output z.
// Open: outputs with the same blocks that it leaves out: one that is left out is tried in a group of its own, which costs work and no answer.
pub fn group_of(z: usize, b: usize, reached: &Reached) -> u64
    requires { (z < 64) × (b ≤ 4160) }
    ensures { Alike b z reached.now result }
{
    let mut g = u64::MAX;
    for &word in &reached[..b] {
        g = part(g, word, z);
    }
    g
}

// The walk of a fault whose site reaches the outputs of the word, from what the search found: the lowest output that shows it, or 64, and the first pattern there.
// Open: the answer where what was found is not what the patterns of a chip show: that it is that is the caller's to know.
pub fn verdict(o: usize, outs: u64, best: usize, pat: usize, widths: &OutputWidths) -> Walk
    requires o_bound { (o ≤ 64) × (pat < 4294967296) }
    requires by_index { (b : ℕ) × (reached : List ℕ) × Widths o b reached widths.now × ((z : ℕ) → z < o → out_of outs z ≡ true → width_of b reached z ≤ 16) }
    ensures { (N : Netlist) (b : ℕ) (reached : List ℕ) (low : ℕ → ℕ) (fault : Fault) (left : ℕ) → o ≡ N.outs → b ≡ (blocks N low).count → Widths o b reached widths.now
        → Sofar (Tried N (blocks N low) (stuck fault) (rel_of reached)) (size_of b reached) 0 outs left best pat → WalkIs N (blocks N low) fault outs reached result }
{
    let mut tries = 0;
    for (z, &w) in widths[..o].iter().enumerate() {
        if words::has_bit(outs, z) {
            if z == best {
                return Walk::Hit(z, pat, tries + (pat + 1));
            }
            tries += 1usize << w;
        }
    }
    Walk::Missed(tries)
}
