#![tactic(auto)]
// Writes a netlist that stands in tables as a netlist file: input k has pad k + 1, and output z of a netlist with i inputs pad i + 1 + z.
ghost use Rattle.std.specs.Prelude.{◌≡◌, List, ◌∷◌, ◌++◌, ℕ, ◌+◌, ◌*◌, ◌≤◌, length, get_or};
ghost use Rattle.chip.specs.Netlist.{sum_below, all_pins};
ghost use Rattle.chip.specs.Inner.Limits.{InLimits};
ghost use Rattle.chip.specs.Inner.Tables.{tabled, sized};
ghost use Rattle.chip.specs.Refusals.{Wrote};
ghost use Rattle.chip.specs.File.{word, inputs_file, pins_file, cells_file, outputs_file, padded_file};
ghost use Rattle.writing.specs.Inner.Put.{Put};

use chip::{Counts, Kinds, Nets, Sizes};

// A number of two bytes, low byte first.
fn put_word(out: &mut [u8], at: usize, x: u16) -> usize
    requires { at + 2 ≤ length out.old }
    ensures { Put (word x) at out.old out.new result }
{
    out[at..at + 2].copy_from_slice(&x.to_le_bytes());
    at + 2
}

// The inputs: input k has pad k + 1.
fn put_inputs(out: &mut [u8], b: usize) -> usize
    requires { (2 + b ≤ length out.old) × (b ≤ 64) }
    ensures { Put (word b ++ inputs_file (λ k. k + 1) b) 0 out.old out.new result }
{
    let at = put_word(out, 0, b as u16);
    for k in 0..b {
        out[at + k] = (k + 1) as u8;
    }
    at + b
}

// The nets of n pins, from pin `from` on.
fn put_pins(nets: &Nets, from: usize, n: usize, out: &mut [u8], start: usize) -> usize
    requires { (from + n ≤ 4096) × (start + 2 * n ≤ length out.old) }
    ensures { (i c o : ℕ) (kinds counts : List ℕ) → Put (pins_file (tabled i c o kinds counts nets.now) from n) start out.old out.new result }
{
    let mut at = start;
    for &net in &nets[from..from + n] {
        at = put_word(out, at, net);
    }
    at
}

// A cell: its kind, its pin count m, and its pins, of which p is the first.
fn put_cell(nets: &Nets, kind: u8, m: u8, p: usize, out: &mut [u8], at: usize) -> usize
    requires { (p + m ≤ 4096) × (at + 2 + 2 * m ≤ length out.old) }
    ensures { (i c o : ℕ) (kinds counts : List ℕ) → Put (kind ∷ m ∷ pins_file (tabled i c o kinds counts nets.now) p m) at out.old out.new result }
{
    out[at] = kind;
    out[at + 1] = m;
    put_pins(nets, p, usize::from(m), out, at + 2)
}

// The cells.
fn put_cells(
    c: usize,
    kinds: &Kinds,
    counts: &Counts,
    nets: &Nets,
    out: &mut [u8],
    start: usize,
) -> usize
    requires c_bound { (c ≤ 1024) × (sum_below (λ j. get_or counts.now j 0) c ≤ 4096) }
    requires c_in_bounds { start + 2 + 2 * c + 2 * sum_below (λ j. get_or counts.now j 0) c ≤ length out.old }
    ensures { (i o : ℕ) → Put (word c ++ cells_file (tabled i c o kinds.now counts.now nets.now) c) start out.old out.new result }
{
    let mut at = put_word(out, start, c as u16);
    let mut p = 0;
    for j in 0..c {
        let m = counts[j];
        at = put_cell(nets, kinds[j], m, p, out, at);
        p += usize::from(m);
    }
    at
}

// The outputs, of which `first` is the first pin: output z has pad b + 1 + z.
fn put_outputs(o: usize, nets: &Nets, b: usize, first: usize, out: &mut [u8], start: usize) -> usize
    requires o_bound { (first + o ≤ 4096) × (o ≤ 64) × (b ≤ 64) }
    requires o_in_bounds { start + 2 + 3 * o ≤ length out.old }
    ensures { (i c : ℕ) (kinds counts : List ℕ) → first ≡ sum_below (λ j. get_or counts j 0) c → Put (word o ++ outputs_file (tabled i c o kinds counts nets.now) (λ z. b + 1 + z) o) start out.old out.new result }
{
    let mut at = put_word(out, start, o as u16);
    for z in 0..o {
        out[at] = (b + 1 + z) as u8;
        at = put_word(out, at + 1, nets[first + z]);
    }
    at
}

// Writes the file.
pub fn put_file(z: Sizes, kinds: &Kinds, counts: &Counts, nets: &Nets, out: &mut [u8])
    requires in_limits { InLimits (sized z kinds.now counts.now nets.now) }
    requires n_value { z.pins ≡ all_pins (sized z kinds.now counts.now nets.now) }
    requires o_in_bounds { 6 + z.inputs + 2 * z.cells + 2 * z.pins + z.outputs ≤ length out.old }
    ensures { Wrote (padded_file (sized z kinds.now counts.now nets.now)) out.old out.new }
{
    let i = z.inputs;
    let o = z.outputs;
    let cells = put_inputs(out, i);
    let outputs = put_cells(z.cells, kinds, counts, nets, out, cells);
    put_outputs(o, nets, i, z.pins - o, out, outputs);
}
