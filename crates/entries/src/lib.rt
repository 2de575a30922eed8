#![tactic(auto)]
// The lines of a listing: that of the sizes, one for each fault, and the one of a netlist that is refused.
ghost use Rattle.std.specs.Prelude.{◌≤◌, length};

use chip::{Fault, Refusal, Searched, Site, Sizes};
use lines::Line;

// The site and the stuck value.
fn name(fault: Fault, line: &mut Line) {
    let stuck = fault.stuck;
    match fault.site {
        Site::Net(n) => write!(line, "n{n}/{stuck}"),
        Site::Pin(p) => write!(line, "p{p}/{stuck}"),
    }
}

// The answer, with the play on i inputs, d + 1 clocks long.
fn answer(i: usize, d: usize, r: Searched, play: &[u8], line: &mut Line)
    requires { (i ≤ 64) × (d ≤ 255) × (16384 ≤ length play.now) }
{
    match r {
        Searched::Found(z, _, k) => {
            write!(line, " out {z} tries {k} play");
            line.clocks(play, i, d + 1);
        }
        Searched::Untestable(k) => {
            write!(line, " untestable tries {k}");
        }
        Searched::Refused(refusal) => {
            write!(line, " {refusal}");
        }
    }
}

// The line of a fault, from its answer.
// Open: the bytes of the buffer and how many wait: what is printed is compared, and what a write does is outside the program.
pub fn entry(i: usize, d: usize, fault: Fault, r: Searched, play: &[u8], line: &mut Line)
    requires { (i ≤ 64) × (d ≤ 255) × (16384 ≤ length play.now) }
    ensures { line.new ≤ 65536 }
{
    name(fault, line);
    answer(i, d, r, play, line);
    writeln!(line);
}

// The line of sizes, with the depth, the class and the number of blocks.
// Open: the bytes of the buffer and how many wait: what is printed is compared, and what a write does is outside the program.
pub fn sizes(z: Sizes, d: usize, class: u8, b: usize, line: &mut Line)
    ensures { line.new ≤ 65536 }
{
    let Sizes {
        inputs,
        cells,
        outputs,
        ..
    } = z;
    writeln!(
        line,
        "in {inputs} cells {cells} out {outputs} depth {d} class {class} blocks {b}"
    );
}

// The one line of a netlist that is refused.
// Open: the bytes of the buffer and how many wait: what is printed is compared, and what a write does is outside the program.
pub fn refused(refusal: Refusal, line: &mut Line)
    ensures { line.new ≤ 65536 }
{
    writeln!(line, "{refusal}");
}
