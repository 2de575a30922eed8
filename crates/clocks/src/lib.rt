#![tactic(auto)]
// Sets a pattern on the clocks of a play, and reads it back.
ghost use Rattle.chip.specs.Replies.{SetOn, SetReply, ReadOn, ReadReply};
ghost use Rattle.opening.specs.Open.{netlist_of, IsOpen};

use chip::{Reason, Refusal};
use opening::Chip;
use order::Sorted;

// Sets a pattern for an output of an open chip, as the play of d + 1 clocks that begins the buffer.
// Refuses 13 (no such output), 11 (class 1), 14 (the pattern's length), 18 (its bytes), 15 (too short a buffer).
pub fn set_on(
    opened: &Chip,
    output: usize,
    pattern: &[u8],
    play: &mut [u8],
) -> Result<usize, Refusal>
    requires { IsOpen opened.now }
    ensures { SetOn (netlist_of opened.now) output pattern.now play.old (result, play.new) }
{
    let z = opened.sizes;
    let s = opened.shape;
    if z.outputs <= output {
        return Err(Reason::NoOutput.at(0));
    }
    if s.class == 1 {
        return Err(Reason::ClassOne.at(s.place));
    }
    if pattern.len() != s.blocks {
        return Err(Reason::BadLength.at(pattern.len()));
    }
    if let Some(k) = plays::first_above_one(pattern) {
        return Err(Reason::BadByte.at(k));
    }
    let long = (s.depth + 1) * z.inputs;
    if play.len() < long {
        return Err(Reason::ShortBuffer.at(long));
    }
    let cells = Sorted {
        sizes: z,
        kinds: &opened.kinds,
        counts: &opened.counts,
        nets: &opened.nets,
        firsts: &opened.firsts,
        order: &opened.order,
    };
    sweeps::set_play(
        cells,
        s,
        output,
        &opened.branches,
        &opened.block,
        pattern,
        play,
    );
    Ok(long)
}

// Reads back the pattern that an output of an open chip sees at a clock of the play, into the bytes that begin the buffer.
// Refuses 13 (no such output), 11 (class 1), 14 (the play's length), 18 (its bytes), 19 (the clock), 15 (too short a buffer).
pub fn read_on(
    opened: &Chip,
    output: usize,
    play: &[u8],
    clock: usize,
    pattern: &mut [u8],
) -> Result<usize, Refusal>
    requires { IsOpen opened.now }
    ensures { ReadOn (netlist_of opened.now) output play.now clock pattern.old (result, pattern.new) }
{
    let z = opened.sizes;
    let s = opened.shape;
    if z.outputs <= output {
        return Err(Reason::NoOutput.at(0));
    }
    if s.class == 1 {
        return Err(Reason::ClassOne.at(s.place));
    }
    let Some(n) = plays::clock_count(z.inputs, play) else {
        return Err(Reason::BadLength.at(play.len()));
    };
    if let Some(k) = plays::first_above_one(play) {
        return Err(Reason::BadByte.at(k));
    }
    if clock < s.depth || n <= clock {
        return Err(Reason::BadClock.at(n));
    }
    if pattern.len() < s.blocks {
        return Err(Reason::ShortBuffer.at(s.blocks));
    }
    let from = (clock - s.depth) * z.inputs;
    let cells = Sorted {
        sizes: z,
        kinds: &opened.kinds,
        counts: &opened.counts,
        nets: &opened.nets,
        firsts: &opened.firsts,
        order: &opened.order,
    };
    sweeps::read_play(
        cells,
        s,
        output,
        &opened.branches,
        &opened.block,
        &play[from..],
        pattern,
    );
    Ok(s.blocks)
}

// Sets a pattern for an output of a netlist file. Refuses 1 to 10, and then as on an open chip.
pub fn set_pattern(
    file: &[u8],
    output: usize,
    pattern: &[u8],
    play: &mut [u8],
) -> Result<usize, Refusal>
    ensures { SetReply file.now output pattern.now play.old (result, play.new) }
{
    let opened = opening::open(file)?;
    set_on(&opened, output, pattern, play)
}

// Reads back the pattern that an output of a netlist file sees at a clock of the play. Refuses 1 to 10, and then as on an open chip.
pub fn read_back(
    file: &[u8],
    output: usize,
    play: &[u8],
    clock: usize,
    pattern: &mut [u8],
) -> Result<usize, Refusal>
    ensures { ReadReply file.now output play.now clock pattern.old (result, pattern.new) }
{
    let opened = opening::open(file)?;
    read_on(&opened, output, play, clock, pattern)
}
