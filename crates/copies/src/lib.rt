#![tactic(auto)]
// The copies of pad buffers in the transformed circuit: each block that is not its input's lowest has its own of those on its way.
ghost use Rattle.std.specs.Prelude.{◌≡◌, List, ℕ, ◌+◌, ◌≤◌, ◌<◌, length, get_or};
ghost use Rattle.chip.specs.Netlist.{Netlist, sum_below, all_pins};
ghost use Rattle.chip.specs.Inner.Limits.{InLimits};
ghost use Rattle.chip.specs.Pads.{branch_of};
ghost use Rattle.chip.specs.Inner.Tables.{tabled, BranchTable};
ghost use Rattle.chip.specs.Class.{Lowest, blocks};
ghost use Rattle.copies.specs.Inner.Marks.{Way, Ways, WayMarked, FlatMarks, FirstBlocks, NextBlock, LowestBlocks, NoCopies, CopiesOf};
ghost use Rattle.blocks.specs.Labels.{BlockTable, Numbered};

use chip::{Block, Branches, Firsts, INPUTS, Nets, Sizes};

// A mark for each block and cell: the transformed circuit has at most 64 blocks.
pub const COPIES: usize = 65536;

// The copies of a circuit: the lowest block of each input; whether block k has a copy of cell j, at place 1024 * k + j, and its number there; and how many copies there are.
#[derive(Drop)]
pub struct Copies {
    pub lowest: [u16; INPUTS],
    pub marks: [u8; COPIES],
    pub numbers: [u16; COPIES],
    pub count: usize,
}

impl Copies {
    // No copies, and no marks yet.
    pub fn none() -> Copies
        ensures { NoCopies result }
    {
        Copies {
            lowest: [0; INPUTS],
            marks: [0; COPIES],
            numbers: [0; COPIES],
            count: 0,
        }
    }
}

// Marks the pad buffers on the way to branch p, that of cell 0 at place `base`: steps back from its net to the input, at most as many as there are cells.
fn mark_way(z: Sizes, p: usize, base: usize, firsts: &Firsts, nets: &Nets, marks: &mut [u8])
    requires by_index { (o : ℕ) × (kinds : List ℕ) × (counts : List ℕ) × Way (tabled z.inputs z.cells o kinds counts nets.now) firsts.now p }
    requires c_in_bounds { (base + z.cells ≤ length marks.old) × (length marks.old ≤ 65536) }
    ensures { (o : ℕ) (kinds counts : List ℕ) → Way (tabled z.inputs z.cells o kinds counts nets.now) firsts.now p
        → WayMarked (tabled z.inputs z.cells o kinds counts nets.now) p base marks.old marks.new }
{
    let mut net = usize::from(nets[p]);
    for _ in 0..z.cells {
        if net < z.inputs {
            return;
        }
        let j = net - z.inputs;
        marks[base + j] = 1;
        net = usize::from(nets[usize::from(firsts[j])]);
    }
}

// Marks the pad buffers on the way to pin p, if it is a branch of a block that is not its input's lowest.
fn mark_pin(
    z: Sizes,
    p: usize,
    firsts: &Firsts,
    nets: &Nets,
    branches: &Branches,
    block: &Block,
    lowest: &[u16; INPUTS],
    marks: &mut [u8],
)
    requires by_index { (o : ℕ) × (kinds : List ℕ) × (counts : List ℕ) × Ways (tabled z.inputs z.cells o kinds counts nets.now) z.pins firsts.now branches.now
        × (p < z.pins) × (branch_of (tabled z.inputs z.cells o kinds counts nets.now) p < z.inputs → get_or block.now p 0 < 64) }
    requires marks_len { length marks.old ≡ 65536 }
    ensures { (length marks.new ≡ 65536) × ((o : ℕ) (kinds counts : List ℕ) (low : ℕ → ℕ) → p < z.pins
        → Ways (tabled z.inputs z.cells o kinds counts nets.now) z.pins firsts.now branches.now
        → BlockTable (tabled z.inputs z.cells o kinds counts nets.now) low block.now
        → FirstBlocks (tabled z.inputs z.cells o kinds counts nets.now) (blocks (tabled z.inputs z.cells o kinds counts nets.now) low) lowest.now
        → FlatMarks (tabled z.inputs z.cells o kinds counts nets.now) (blocks (tabled z.inputs z.cells o kinds counts nets.now) low) p marks.old
        → FlatMarks (tabled z.inputs z.cells o kinds counts nets.now) (blocks (tabled z.inputs z.cells o kinds counts nets.now) low) (p + 1) marks.new) }
{
    let x = usize::from(branches[p]);
    let b = usize::from(block[p]);
    if x < z.inputs && usize::from(lowest[x]) != b {
        mark_way(z, p, 1024 * b, firsts, nets, marks);
    }
}

// Marks the cells of which each block has copies: place 1024 * b + j stands for block b and cell j.
fn mark_copies(
    z: Sizes,
    firsts: &Firsts,
    nets: &Nets,
    branches: &Branches,
    block: &Block,
    lowest: &[u16; INPUTS],
    marks: &mut [u8],
)
    requires by_index { (o : ℕ) × (kinds : List ℕ) × (counts : List ℕ) × Ways (tabled z.inputs z.cells o kinds counts nets.now) z.pins firsts.now branches.now
        × ((p : ℕ) → p < z.pins → branch_of (tabled z.inputs z.cells o kinds counts nets.now) p < z.inputs → get_or block.now p 0 < 64) }
    requires marks_len { (length marks.old ≡ 65536) × ((l : ℕ) → get_or marks.old l 0 ≡ 0) }
    ensures { (o : ℕ) (kinds counts : List ℕ) (low : ℕ → ℕ) → Ways (tabled z.inputs z.cells o kinds counts nets.now) z.pins firsts.now branches.now
        → BlockTable (tabled z.inputs z.cells o kinds counts nets.now) low block.now
        → FirstBlocks (tabled z.inputs z.cells o kinds counts nets.now) (blocks (tabled z.inputs z.cells o kinds counts nets.now) low) lowest.now
        → FlatMarks (tabled z.inputs z.cells o kinds counts nets.now) (blocks (tabled z.inputs z.cells o kinds counts nets.now) low) z.pins marks.new }
{
    for p in 0..z.pins {
        mark_pin(z, p, firsts, nets, branches, block, lowest, marks);
    }
}

// The number after block `at` and all blocks of branches of input x.
fn next_block(n: usize, branches: &Branches, block: &Block, x: usize, at: usize) -> usize
    requires { (n ≤ 4096) × (at ≤ 64) × ((p : ℕ) → p < n → get_or branches.now p 0 ≡ x → get_or block.now p 0 < 64) }
    ensures { NextBlock branches.now block.now x at n result }
{
    let mut next = at + 1;
    for p in 0..n {
        if usize::from(branches[p]) == x {
            next = next.max(usize::from(block[p]) + 1);
        }
    }
    next
}

// The lowest block of each input.
fn lowest_blocks(z: Sizes, branches: &Branches, block: &Block, table: &mut [u16])
    requires value { (N : Netlist) × (N.inputs ≡ z.inputs) × (z.pins ≡ all_pins N) × InLimits N × BranchTable N branches.now × LowestBlocks N block.now }
    requires table_len { length table.old ≡ 64 }
    ensures { (N : Netlist) (low : ℕ → ℕ) → N.inputs ≡ z.inputs → z.pins ≡ all_pins N → BranchTable N branches.now → Lowest N low
        → BlockTable N low block.now → FirstBlocks N (blocks N low) table.new }
{
    let mut at = 0;
    for x in 0..z.inputs {
        table[x] = at as u16;
        at = next_block(z.pins, branches, block, x, at);
    }
}

// The number of marks before each of the first m places. Answers how many there are before place m.
fn number_copies(m: usize, marks: &[u8], numbers: &mut [u16]) -> usize
    requires { (m ≤ 65536) × (length marks.now ≡ 65536) × (length numbers.old ≡ 65536) × ((l : ℕ) → get_or marks.now l 0 ≤ 1) }
    ensures numbers_len { length numbers.new ≡ 65536 }
    ensures upper_bound { (result ≤ m) × (result ≡ sum_below (λ l. get_or marks.now l 0) m) × ((k : ℕ) → k < m → get_or numbers.new k 0 ≡ sum_below (λ l. get_or marks.now l 0) k) }
{
    let mut count = 0;
    for l in 0..m {
        numbers[l] = count as u16;
        count += usize::from(marks[l]);
    }
    count
}

// Finds the copies of a circuit of b blocks, where there are none yet.
// Open: entries past the inputs, the blocks and the cells; all where the number of blocks is not the netlist's: tables of up to 65,536 of which a part is in use, and the number is the caller's to know.
pub fn find_copies(
    z: Sizes,
    b: usize,
    firsts: &Firsts,
    nets: &Nets,
    branches: &Branches,
    block: &Block,
    found: &mut Copies,
)
    requires by_index { (o : ℕ) × (kinds : List ℕ) × (counts : List ℕ) × Ways (tabled z.inputs z.cells o kinds counts nets.now) z.pins firsts.now branches.now
        × LowestBlocks (tabled z.inputs z.cells o kinds counts nets.now) block.now }
    requires b_bound { b ≤ 64 }
    requires none_yet { NoCopies found.old }
    ensures upper_bound { found.new.count ≤ 65536 }
    ensures by_index_3 { (o : ℕ) (kinds counts : List ℕ) (low : ℕ → ℕ) → Ways (tabled z.inputs z.cells o kinds counts nets.now) z.pins firsts.now branches.now
        → Lowest (tabled z.inputs z.cells o kinds counts nets.now) low → Numbered (tabled z.inputs z.cells o kinds counts nets.now) low block.now b
        → CopiesOf (tabled z.inputs z.cells o kinds counts nets.now) (blocks (tabled z.inputs z.cells o kinds counts nets.now) low) found.new }
{
    lowest_blocks(z, branches, block, &mut found.lowest);
    mark_copies(
        z,
        firsts,
        nets,
        branches,
        block,
        &found.lowest,
        &mut found.marks,
    );
    found.count = number_copies(1024 * b, &found.marks, &mut found.numbers);
}
