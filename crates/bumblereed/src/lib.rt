#![tactic(auto)]
// The calls of Bumblereed, each with its contract. Any bytes get a reply: no call on a file has a precondition.
// A refusal has a reason, with its number in 01, and a place, and writes nothing; the first refusal in the order below is given.
// A call on a file first refuses what cannot be read (1 to 8), then a loop (9), then a depth over 255 (10). Who makes many calls on one
// file opens it once; a call on an open chip asks only that the chip was opened, and refuses what comes after 10.
// In a contract, result is the answer, .now and .old have the bytes as they are lent, and .new those that the call leaves.
ghost use Rattle.std.specs.Prelude.{◌≡◌, ◌≢◌, List, ℕ, ◌+◌};
ghost use Rattle.chip.specs.Format.{read_of};
ghost use Rattle.chip.specs.Got.{got};
ghost use Rattle.chip.specs.Inner.Tables.{sized};
ghost use Rattle.chip.specs.Replies.{ClassOn, ClassReply, TransformOn, TransformReply, SetOn, SetReply, ReadOn, ReadReply, CheckOn, CheckReply, SearchOn, SearchReply};
ghost use Rattle.netlist.specs.Answer.{tables_of};
ghost use Rattle.opening.specs.Open.{netlist_of, IsOpen, OpenIs};
ghost use Rattle.faults.specs.Numbers.{fault_number};
ghost use Rattle.spots.specs.Spots.{Spots};
ghost use Rattle.findings.specs.Answered.{Looked, Surveyed};

use chip::{Classed, Fault, Refusal, Searched, Sight, Sizes};
use findings::Findings;
use netlist::Tables;
use opening::Chip;
use structure::Shape;

// The six calls on a file.

// Names the class, with the depth and the number of blocks.
pub fn class_of(file: &[u8]) -> Result<Classed, Refusal>
    ensures { ClassReply file.now result }
{
    opening::class_of(file)
}

// Writes the transformed circuit as a file and answers its length.
// Refuses 17 (more than 64 blocks), 2 and 7 (more cells or pins than a file may have), 15 (too short a buffer).
pub fn transform(file: &[u8], out: &mut [u8]) -> Result<usize, Refusal>
    ensures { TransformReply file.now out.old (result, out.new) }
{
    transform::transform(file, out)
}

// Sets a pattern on the clocks for an output, and answers the length of the play that it writes.
// Refuses 13 (no such output), 11 (class 1), 14 (the pattern's length), 18 (its bytes), 15 (too short a buffer).
pub fn set_pattern(
    file: &[u8],
    output: usize,
    pattern: &[u8],
    play: &mut [u8],
) -> Result<usize, Refusal>
    ensures { SetReply file.now output pattern.now play.old (result, play.new) }
{
    clocks::set_pattern(file, output, pattern, play)
}

// Reads back the pattern that an output sees at a clock of a play, and answers the length of the pattern that it writes.
// Refuses 13 (no such output), 11 (class 1), 14 (the play's length), 18 (its bytes), 19 (the clock), 15 (too short a buffer).
pub fn read_back(
    file: &[u8],
    output: usize,
    play: &[u8],
    clock: usize,
    pattern: &mut [u8],
) -> Result<usize, Refusal>
    ensures { ReadReply file.now output play.now clock pattern.old (result, pattern.new) }
{
    clocks::read_back(file, output, play, clock, pattern)
}

// Checks a play against a fault: the first clock from clock d on and, in it, the first output at which the fault is shown, or not seen.
// Refuses 12 (no such fault), 14 (the play's length), 18 (its bytes).
pub fn check_play(file: &[u8], fault: Fault, play: &[u8]) -> Result<Option<Sight>, Refusal>
    ensures { CheckReply file.now fault play.now result }
{
    checking::check_play(file, fault, play)
}

// Searches a play for a fault: found, with output, pattern number and tries, and the play written; or untestable, with its tries.
// Refuses 12 (no such fault), 11 (class 1), 16 (more than 16 blocks behind a reached output), 15 (too short a buffer).
pub fn search(file: &[u8], fault: Fault, play: &mut [u8]) -> Searched
    ensures { SearchReply file.now fault play.old (result, play.new) }
{
    search::search(file, fault, play)
}

// The same on an open chip, and what a program needs that goes through all faults of one.

// Reads a file into tables, or refuses it: 1 to 8.
pub fn read(file: &[u8]) -> Result<Tables, Refusal>
    ensures { result ≡ tables_of (read_of file.now) }
{
    netlist::read(file)
}

// Opens a file, or refuses it: 1 to 10.
// Open: as `opening::open`: an order is not one.
pub fn open(file: &[u8]) -> Result<Chip, Refusal>
    ensures { OpenIs file.now result }
{
    opening::open(file)
}

// Names the class of an open chip, with its depth and the number of its blocks.
pub fn class_on(opened: &Chip) -> Classed
    requires { IsOpen opened.now }
    ensures { ClassOn (netlist_of opened.now) (got result) }
{
    opening::class_on(opened)
}

// Writes the transformed circuit of an open chip as a file and answers its length. Refuses 17, 2, 7, 15.
pub fn transform_on(opened: &Chip, out: &mut [u8]) -> Result<usize, Refusal>
    requires { IsOpen opened.now }
    ensures { TransformOn (netlist_of opened.now) out.old (result, out.new) }
{
    transform::transform_on(opened, out)
}

// Sets a pattern on the clocks for an output of an open chip, and answers the length of the play. Refuses 13, 11, 14, 18, 15.
pub fn set_on(
    opened: &Chip,
    output: usize,
    pattern: &[u8],
    play: &mut [u8],
) -> Result<usize, Refusal>
    requires { IsOpen opened.now }
    ensures { SetOn (netlist_of opened.now) output pattern.now play.old (result, play.new) }
{
    clocks::set_on(opened, output, pattern, play)
}

// Reads back the pattern that an output of an open chip sees at a clock of a play. Refuses 13, 11, 14, 18, 19, 15.
pub fn read_on(
    opened: &Chip,
    output: usize,
    play: &[u8],
    clock: usize,
    pattern: &mut [u8],
) -> Result<usize, Refusal>
    requires { IsOpen opened.now }
    ensures { ReadOn (netlist_of opened.now) output play.now clock pattern.old (result, pattern.new) }
{
    clocks::read_on(opened, output, play, clock, pattern)
}

// Checks a play against a fault of an open chip. Refuses 12, 14, 18.
pub fn check_on(opened: &Chip, fault: Fault, play: &[u8]) -> Result<Option<Sight>, Refusal>
    requires { IsOpen opened.now }
    ensures { CheckOn (netlist_of opened.now) fault play.now result }
{
    checking::check_on(opened, fault, play)
}

// Searches a play for a fault of an open chip. Refuses 12, 11, 16, 15.
pub fn search_on(opened: &Chip, fault: Fault, play: &mut [u8]) -> Searched
    requires { IsOpen opened.now }
    ensures { SearchOn (netlist_of opened.now) fault play.old (result, play.new) }
{
    search::search_on(opened, fault, play)
}

// Fault f of a chip with so many nets, in the order of the listing: nets ascending, then pins, stuck at 0 before 1.
pub fn fault_at(nets: usize, f: usize) -> Fault
    ensures { result ≡ fault_number nets f }
{
    faults::fault_at(nets, f)
}

// Looks for all faults of a chip of class 2 or 3 at once.
// Open: as `search::survey`: nobody reads these entries.
pub fn survey(opened: &Chip) -> Findings
    requires { IsOpen opened.now × (opened.now.shape.class ≢ 1) }
    ensures { Surveyed opened.now result }
{
    search::survey(opened)
}

// Searches a play for fault f of a chip that was surveyed. Refuses 16 and 15, as the search does.
pub fn search_listed(z: Sizes, s: Shape, f: usize, found: &Findings, play: &mut [u8]) -> Searched
    requires { (kinds : List ℕ) × (counts : List ℕ) × (nets : List ℕ) × (reached : List ℕ) × Looked z s f found.now.wides found.now.sites found.now.widths found.now.best found.now.pat kinds counts nets reached
        × Spots (sized z kinds counts nets) s.depth reached found.now.spots }
    ensures { (kinds counts nets reached : List ℕ) → Looked z s f found.now.wides found.now.sites found.now.widths found.now.best found.now.pat kinds counts nets reached
        → Spots (sized z kinds counts nets) s.depth reached found.now.spots
        → SearchOn (sized z kinds counts nets) (fault_number (z.inputs + z.cells) f) play.old (result, play.new) }
{
    findings::search_listed(z, s, f, found, play)
}
