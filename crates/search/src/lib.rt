#![tactic(auto)]
// Searches a play for a fault: refuses, or looks for it and answers what was found. Of an open chip one fault may be searched for, or all
// looked for at once and then searched for one by one.
ghost use Rattle.std.specs.Prelude.{◌≡◌, ◌≢◌, ℕ, ◌+◌, ◌*◌, ◌<◌, true};
ghost use Rattle.chip.specs.Search.{digit};
ghost use Rattle.chip.specs.Replies.{SearchOn, SearchReply};
ghost use Rattle.opening.specs.Open.{netlist_of, IsOpen};
ghost use Rattle.faults.specs.Numbers.{fault_number};
ghost use Rattle.spots.specs.Spots.{BlockSpots};
ghost use Rattle.findings.specs.Answered.{Answered, Surveyed};

use chip::{FAULTS, Fault, OUTPUTS, Reason, SITES, Searched, VARIABLES, VariableTable};
use findings::Findings;
use homes::Progress;
use opening::Chip;
use verdicts::Span;

// Looks for fault f of an open chip of class 2 or 3 alone, and answers or refuses: 16, 15.
fn answer_alone(opened: &Chip, f: usize, room: usize) -> Searched
    requires fact { IsOpen opened.now }
    requires class_nonzero { (opened.now.shape.class ≢ 1) × (f < 2 * (opened.now.sizes.inputs + opened.now.sizes.cells + opened.now.sizes.pins)) }
    ensures { Answered (netlist_of opened.now) opened.now.shape (fault_number (opened.now.sizes.inputs + opened.now.sizes.cells) f) opened.now.reached room result }
{
    let mut known = Progress {
        left: [0u64; FAULTS],
        best: [64u8; FAULTS],
        pat: [0u32; FAULTS],
    };
    let z = opened.sizes;
    let s = opened.shape;
    let mut sites = [0u64; SITES];
    let mut widths = [0u16; OUTPUTS];
    let wides = verdicts::judge(
        opened,
        Span { from: f, to: f + 1 },
        &mut sites,
        &mut widths,
        &mut known,
    );
    findings::answer_judged(
        z,
        s,
        f,
        wides,
        &sites,
        &widths,
        &known.best,
        &known.pat,
        room,
    )
}

// The places of the patterns' variables in a play, for the outputs of the word, of an open chip of class 2 or 3.
// The rows of the other outputs are left open.
fn spots_of(opened: &Chip, outs: u64) -> VariableTable
    requires { IsOpen opened.now × (opened.now.shape.class ≢ 1) }
    ensures { (y : ℕ) → digit y outs ≡ true → BlockSpots (netlist_of opened.now) opened.now.shape.depth y opened.now.reached result }
{
    let mut spots = [0u16; VARIABLES];
    spots::find_spots(
        opened.sizes,
        opened.shape,
        outs,
        &opened.kinds,
        &opened.counts,
        &opened.firsts,
        &opened.nets,
        &opened.order,
        &opened.branches,
        &opened.block,
        &opened.reached,
        &mut spots,
    );
    spots
}

// Searches a play for a fault of an open chip, as the d + 1 clocks that begin the buffer.
// Refuses 12 (no such fault), 11 (class 1), 16 (more than 16 blocks behind a reached output), 15 (too short a buffer).
pub fn search_on(opened: &Chip, fault: Fault, play: &mut [u8]) -> Searched
    requires { IsOpen opened.now }
    ensures { SearchOn (netlist_of opened.now) fault play.old (result, play.new) }
{
    let z = opened.sizes;
    let s = opened.shape;
    if !faults::known(z.inputs, z.cells, z.pins, fault) {
        return Searched::Refused(Reason::NoFault.at(0));
    }
    if s.class == 1 {
        return Searched::Refused(Reason::ClassOne.at(s.place));
    }
    let f = faults::fault_number(z.inputs + z.cells, fault);
    let answer = answer_alone(opened, f, play.len());
    if let Searched::Found(y, m, _) = answer {
        let spots = spots_of(opened, words::one_bit(y));
        spots::play_spots(z.inputs, s.depth, y, m, &spots, play);
    }
    answer
}

// Looks for all faults of an open chip of class 2 or 3 at once.
// Open: as `verdicts::judge` and `spots::find_spots`: nobody reads these entries.
pub fn survey(opened: &Chip) -> Findings
    requires { IsOpen opened.now × (opened.now.shape.class ≢ 1) }
    ensures { Surveyed opened.now result }
{
    let mut known = Progress {
        left: [0u64; FAULTS],
        best: [64u8; FAULTS],
        pat: [0u32; FAULTS],
    };
    let z = opened.sizes;
    let s = opened.shape;
    let mut sites = [0u64; SITES];
    let mut widths = [0u16; OUTPUTS];
    let wides = verdicts::judge(
        opened,
        Span {
            from: 0,
            to: 2 * (z.inputs + z.cells + z.pins),
        },
        &mut sites,
        &mut widths,
        &mut known,
    );
    Findings {
        wides,
        sites,
        widths,
        best: known.best,
        pat: known.pat,
        spots: spots_of(opened, u64::MAX),
    }
}

// Searches a play for a fault of a netlist file. Refuses 1 to 10, and then as on an open chip.
pub fn search(file: &[u8], fault: Fault, play: &mut [u8]) -> Searched
    ensures { SearchReply file.now fault play.old (result, play.new) }
{
    match opening::open(file) {
        Ok(opened) => search_on(&opened, fault, play),
        Err(refusal) => Searched::Refused(refusal),
    }
}
