#![tactic(auto)]
// Checks a play against a fault: the first clock from the depth on, and on it the first output, at which the fault is shown.
ghost use Rattle.chip.specs.Faults.{FaultIn, stuck, IsPlay};
ghost use Rattle.chip.specs.Replies.{CheckOn, CheckReply};
ghost use Rattle.opening.specs.Open.{netlist_of, IsOpen};
ghost use Rattle.running.specs.Verdict.{Verdict};

use chip::{Fault, Reason, Refusal, Sight};
use opening::Chip;

// Runs a play of n clocks on an open chip, good and faulty.
fn run_on(opened: &Chip, fault: Fault, play: &[u8], n: usize) -> Option<Sight>
    requires fact { IsOpen opened.now }
    requires fault_in { FaultIn (netlist_of opened.now) fault × IsPlay opened.now.sizes.inputs play.now n }
    ensures { Verdict (netlist_of opened.now) (stuck fault) play.now opened.now.shape.depth n result }
{
    let z = opened.sizes;
    let s = opened.shape;
    let gates = running::pick(z.cells, &opened.kinds, &opened.order, false);
    let flops = running::pick(z.cells, &opened.kinds, &opened.order, true);
    running::run_clocks(
        z,
        s.depth,
        n,
        &opened.kinds,
        &opened.counts,
        &opened.firsts,
        &opened.nets,
        gates,
        flops,
        fault,
        play,
    )
}

// Checks a play against a fault of an open chip: where the fault is seen first, if it is.
// Refuses 12 (no such fault), 14 (the play's length), 18 (its bytes).
pub fn check_on(opened: &Chip, fault: Fault, play: &[u8]) -> Result<Option<Sight>, Refusal>
    requires { IsOpen opened.now }
    ensures { CheckOn (netlist_of opened.now) fault play.now result }
{
    let z = opened.sizes;
    if !faults::known(z.inputs, z.cells, z.pins, fault) {
        return Err(Reason::NoFault.at(0));
    }
    let Some(n) = plays::clock_count(z.inputs, play) else {
        return Err(Reason::BadLength.at(play.len()));
    };
    if let Some(k) = plays::first_above_one(play) {
        return Err(Reason::BadByte.at(k));
    }
    Ok(run_on(opened, fault, play, n))
}

// Checks a play against a fault of the netlist in a file. Refuses 1 to 10, and then as on an open chip.
pub fn check_play(file: &[u8], fault: Fault, play: &[u8]) -> Result<Option<Sight>, Refusal>
    ensures { CheckReply file.now fault play.now result }
{
    let opened = opening::open(file)?;
    check_on(&opened, fault, play)
}
