#![tactic(auto)]
// What is answered of a fault that was looked for: a refusal (16, 15), untestable, or the pattern found, with its play.
ghost use Rattle.std.specs.Prelude.{List, ℕ, ◌+◌, ◌<◌};
ghost use Rattle.chip.specs.Inner.Tables.{sized};
ghost use Rattle.chip.specs.Replies.{SearchOn};
ghost use Rattle.faults.specs.Numbers.{fault_number};
ghost use Rattle.spots.specs.Spots.{Spots};
ghost use Rattle.findings.specs.Answered.{Answered, Looked};

use chip::{FAULTS, OutputWidths, Reason, SITES, Searched, Sizes, VariableTable};
use structure::Shape;
use walk::Walk;

// What was found of all faults of an open chip, with the places of the patterns' variables in a play.
#[derive(Drop)]
pub struct Findings {
    pub wides: u64,
    pub sites: [u64; SITES],
    pub widths: OutputWidths,
    pub best: [u8; FAULTS],
    pub pat: [u32; FAULTS],
    pub spots: VariableTable,
}

// Answers for fault f of a chip of class 2 or 3, which was looked for, with room for so many bytes of a play, or refuses: 16, 15.
// The play of a pattern that is found is left to be set.
pub fn answer_judged(
    z: Sizes,
    s: Shape,
    f: usize,
    wides: u64,
    sites: &[u64; SITES],
    widths: &OutputWidths,
    best: &[u8; FAULTS],
    pat: &[u32; FAULTS],
    room: usize,
) -> Searched
    requires { (kinds : List ℕ) × (counts : List ℕ) × (nets : List ℕ) × (reached : List ℕ) × Looked z s f wides sites.now widths.now best.now pat.now kinds counts nets reached }
    ensures { (kinds counts nets reached : List ℕ) → Looked z s f wides sites.now widths.now best.now pat.now kinds counts nets reached
        → Answered (sized z kinds counts nets) s (fault_number (z.inputs + z.cells) f) reached room result }
{
    let outs = sites[f / 2];
    let y = outputs::first_wide(z.outputs, outs, wides);
    if y < z.outputs {
        return Searched::Refused(Reason::WideOutput.at(y));
    }
    let long = (s.depth + 1) * z.inputs;
    if room < long {
        return Searched::Refused(Reason::ShortBuffer.at(long));
    }
    match outputs::verdict(
        z.outputs,
        outs,
        usize::from(best[f]),
        pat[f] as usize,
        widths,
    ) {
        Walk::Missed(k) => Searched::Untestable(k),
        Walk::Hit(z, m, k) => Searched::Found(z, m, k),
    }
}

// Searches a play for fault f of a chip that was surveyed, as the d + 1 clocks that begin the buffer, or refuses: 16, 15.
pub fn search_listed(z: Sizes, s: Shape, f: usize, found: &Findings, play: &mut [u8]) -> Searched
    requires { (kinds : List ℕ) × (counts : List ℕ) × (nets : List ℕ) × (reached : List ℕ) × Looked z s f found.now.wides found.now.sites found.now.widths found.now.best found.now.pat kinds counts nets reached
        × Spots (sized z kinds counts nets) s.depth reached found.now.spots }
    ensures { (kinds counts nets reached : List ℕ) → Looked z s f found.now.wides found.now.sites found.now.widths found.now.best found.now.pat kinds counts nets reached
        → Spots (sized z kinds counts nets) s.depth reached found.now.spots
        → SearchOn (sized z kinds counts nets) (fault_number (z.inputs + z.cells) f) play.old (result, play.new) }
{
    let answer = answer_judged(
        z,
        s,
        f,
        found.wides,
        &found.sites,
        &found.widths,
        &found.best,
        &found.pat,
        play.len(),
    );
    if let Searched::Found(y, m, _) = answer {
        spots::play_spots(z.inputs, s.depth, y, m, &found.spots, play);
    }
    answer
}
