#![tactic(auto)]
// The lines of the program `calls`: for each call its answer, and the whole of the buffer that was lent to it.
ghost use Rattle.std.specs.Prelude.{ℕ, ◌≤◌, ◌≡◌, List};
ghost use Rattle.chip.specs.Format.{read_of};
ghost use Rattle.netlist.specs.Answer.{tables_of};
ghost use Rattle.netlist.specs.Inner.Holds.{Holds};

use chip::{Classed, Refusal, Searched, Sight, Sizes};
use lines::Line;
use netlist::Tables;

// The sizes of a file that is taken, and its tables.
fn tables(t: Tables, line: &mut Line)
    requires { (file : List ℕ) × Holds file t }
    ensures { line.new ≤ 65536 }
{
    let Sizes {
        inputs,
        cells,
        outputs,
        pins,
    } = t.sizes;
    write!(
        line,
        "taken in {inputs} cells {cells} out {outputs} pins {pins}"
    );
    line.hex(&t.pads[..inputs + outputs]);
    line.hex(&t.kinds[..cells]);
    line.hex(&t.counts[..cells]);
    line.hex_words(&t.nets[..pins]);
}

// The sizes and tables of a file, or its refusal.
// Open: the bytes of the buffer and how many wait: what is printed is compared, and what a write does is outside the program.
pub fn read(r: Result<Tables, Refusal>, line: &mut Line)
    requires { (file : List ℕ) × (r ≡ tables_of (read_of file)) }
    ensures { line.new ≤ 65536 }
{
    match r {
        Ok(t) => tables(t, line),
        Err(refusal) => write!(line, "{refusal}"),
    }
}

// The class of a file.
// Open: the bytes of the buffer and how many wait: what is printed is compared, and what a write does is outside the program.
pub fn class(r: Result<Classed, Refusal>, line: &mut Line)
    ensures { line.new ≤ 65536 }
{
    match r {
        Ok(named) => {
            let Classed {
                class,
                depth,
                blocks,
            } = named;
            write!(line, "class {class} depth {depth} blocks {blocks}");
        }
        Err(refusal) => write!(line, "{refusal}"),
    }
}

// A file, a play or a pattern that was put into a lent buffer: the word for it, and how many bytes it has.
// Open: the bytes of the buffer and how many wait: what is printed is compared, and what a write does is outside the program.
pub fn put(word: &str, r: Result<usize, Refusal>, lent: &[u8], line: &mut Line)
    ensures { line.new ≤ 65536 }
{
    match r {
        Ok(n) => write!(line, "{word} {n}"),
        Err(refusal) => write!(line, "{refusal}"),
    }
    line.hex(lent);
}

// A play that is checked against a fault.
// Open: the bytes of the buffer and how many wait: what is printed is compared, and what a write does is outside the program.
pub fn checked(r: Result<Option<Sight>, Refusal>, line: &mut Line)
    ensures { line.new ≤ 65536 }
{
    match r {
        Ok(Some(sight)) => {
            let Sight { clock, output } = sight;
            write!(line, "shown clock {clock} output {output}");
        }
        Ok(None) => write!(line, "not seen"),
        Err(refusal) => write!(line, "{refusal}"),
    }
}

// A play that is searched for a fault.
// Open: the bytes of the buffer and how many wait: what is printed is compared, and what a write does is outside the program.
pub fn searched(r: Searched, lent: &[u8], line: &mut Line)
    ensures { line.new ≤ 65536 }
{
    match r {
        Searched::Found(z, m, k) => write!(line, "found out {z} pattern {m} tries {k}"),
        Searched::Untestable(k) => write!(line, "untestable tries {k}"),
        Searched::Refused(refusal) => write!(line, "{refusal}"),
    }
    line.hex(lent);
}
