#![tactic(auto)]
// Lists a netlist from standard input: a line of sizes and a line for each fault, or the one line of its refusal.
ghost use Rattle.std.specs.Prelude.{◌≤◌, ◌≢◌, length};
ghost use Rattle.opening.specs.Open.{IsOpen};

use chip::{Reason, Refusal};
use lines::Line;
use opening::Chip;

// The longest file is below this, and the longest play has 256 clocks of 64 inputs.
const FILE: usize = 16384;

const PLAY: usize = 16384;

// The listing of an open chip of class 2 or 3.
fn list(opened: &Chip, play: &mut [u8], line: &mut Line)
    requires { IsOpen opened.now × (opened.now.shape.class ≢ 1) × (16384 ≤ length play.old) }
{
    let z = opened.sizes;
    let s = opened.shape;
    entries::sizes(z, s.depth, s.class, s.blocks, line);
    let found = bumblereed::survey(opened);
    let all = 2 * (z.inputs + z.cells + z.pins);
    for k in 0..all {
        let fault = bumblereed::fault_at(z.inputs + z.cells, k);
        let r = bumblereed::search_listed(z, s, k, &found, play);
        entries::entry(z.inputs, s.depth, fault, r, play, line);
    }
}

// The listing of a file. Refuses 1 to 10, and 11.
fn list_file(file: &[u8], play: &mut [u8], line: &mut Line) -> Result<(), Refusal>
    requires { 16384 ≤ length play.old }
{
    let opened = bumblereed::open(file)?;
    let s = opened.shape;
    if s.class == 1 {
        return Err(Reason::ClassOne.at(s.place));
    }
    list(&opened, play, line);
    Ok(())
}

fn main() {
    let mut file = [0u8; FILE];
    let mut play = [0u8; PLAY];
    let mut line = Line::new();
    let n = io::read_full(0, &mut file);
    if let Err(refusal) = list_file(&file[..n], &mut play, &mut line) {
        entries::refused(refusal, &mut line);
    }
    line.flush();
}
