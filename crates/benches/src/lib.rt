#![tactic(auto)]
// The tables that a group of outputs is tried on: those of the chip, which no group changes, and those of the group.
ghost use Rattle.std.specs.Prelude.{◌≡◌, ◌≢◌, List, ℕ, ◌+◌, ◌-◌, ◌≤◌, ◌<◌, length, get_or};
ghost use Rattle.chip.specs.Inner.Limits.{InLimits};
ghost use Rattle.chip.specs.Inner.Tables.{tabled, FirstPins};
ghost use Rattle.chip.specs.Class.{tally};
ghost use Rattle.order.specs.Order.{Ordered};
ghost use Rattle.pads.specs.Sources.{SourceTable};
ghost use Rattle.structure.specs.Inner.Shape.{Ready};
ghost use Rattle.structure.specs.declared.Shape.{Shape};
ghost use Rattle.opening.specs.Open.{netlist_of};
ghost use Rattle.slots.specs.Slots.{rel_of};
ghost use Rattle.readers.specs.Readers.{Heads};
ghost use Rattle.stages.specs.Stage.{Watch};
ghost use Rattle.benches.specs.Benches.{Blocked, BlockInputs, Fitted, BegunAt, BlockList, OutSlots, Benched};

use chip::{BLOCKS, Block, Branches, Nets, PinWords, Reached};
use events::ChipTables;
use opening::Chip;

// The input of each block, by the n pins.
fn block_inputs(i: usize, n: usize, branches: &Branches, block: &Block, input: &mut [u8])
    requires { Blocked i n branches.now block.now × (length input.old ≡ 4160) }
    ensures { BlockInputs i n branches.now block.now input.new }
{
    for p in 0..n {
        if usize::from(branches[p]) < i {
            input[usize::from(block[p])] = branches[p] as u8;
        }
    }
}

// The blocks of the b that reach output z, in order.
fn block_list(z: usize, b: usize, reached: &Reached, list: &mut [u16])
    requires { (z < 64) × (b ≤ 4160) × (tally (rel_of reached.now z) b ≤ 16) × (length list.old ≡ 16) }
    ensures { BlockList b (rel_of reached.now z) list.new }
{
    let mut w = 0;
    for k in 0..b {
        if words::has_bit(reached[k], z) {
            list[w] = k as u16;
            w += 1;
        }
    }
}

// The outputs left to the faults of cell j, or none if it is a pad buffer.
fn open_of(opened: &Chip, j: usize, sources: &[u16], left: &[u64]) -> u64
    requires i_bound { (opened.now.sizes.inputs ≤ 64) × (opened.now.sizes.cells ≤ 1024) × (j < opened.now.sizes.cells) × (length sources.now ≡ 1088) × (length left.now ≡ 10368) }
    requires j_bound { get_or opened.now.firsts j 0 + get_or opened.now.counts j 0 ≤ 4096 }
    ensures { BegunAt opened.now.sizes.inputs opened.now.sizes.cells j opened.now.counts opened.now.firsts sources.now left.now result }
{
    let i = opened.sizes.inputs;
    let c = opened.sizes.cells;
    if usize::from(sources[i + j]) < i {
        return 0;
    }
    let pin = i + c + usize::from(opened.firsts[j]);
    stages::left_at(i + j, pin, usize::from(opened.counts[j]), left)
}

// The outputs left to the faults of each place before the first group.
// Open: further outputs of cells, and entries past the cells: outputs too many cost work and no answer.
pub fn start_groups(opened: &Chip, sources: &[u16], left: &[u64], groups: &mut [u64])
    requires by_index { (o : ℕ) × (kinds : List ℕ) × (nets : List ℕ) × InLimits (tabled opened.now.sizes.inputs opened.now.sizes.cells o kinds opened.now.counts nets) × FirstPins (tabled opened.now.sizes.inputs opened.now.sizes.cells o kinds opened.now.counts nets) opened.now.firsts
        × Ordered (tabled opened.now.sizes.inputs opened.now.sizes.cells o kinds opened.now.counts nets) opened.now.order × SourceTable (tabled opened.now.sizes.inputs opened.now.sizes.cells o kinds opened.now.counts nets) sources.now }
    requires left_len { (length left.now ≡ 10368) × (length groups.old ≡ 1024) }
    ensures { (o : ℕ) (kinds nets : List ℕ) → Ordered (tabled opened.now.sizes.inputs opened.now.sizes.cells o kinds opened.now.counts nets) opened.now.order → SourceTable (tabled opened.now.sizes.inputs opened.now.sizes.cells o kinds opened.now.counts nets) sources.now
        → Watch opened.now.sizes.inputs opened.now.sizes.cells (tabled opened.now.sizes.inputs opened.now.sizes.cells o kinds opened.now.counts nets) opened.now.counts opened.now.firsts opened.now.order left.now groups.new }
{
    for t in 0..opened.sizes.cells {
        groups[t] = open_of(opened, usize::from(opened.order[t]), sources, left);
    }
}

// The slots of the o outputs, whose pins are the last of n.
fn out_slots(o: usize, n: usize, src: &Nets, outs: &mut [u16])
    requires { (o ≤ 64) × (o ≤ n) × (n ≤ 4096) × OutSlots 0 o n src.now outs.old }
    ensures { OutSlots o o n src.now outs.new }
{
    outs[..o].copy_from_slice(&src[n - o..n]);
}

// The tables of a group that output y is one of. Answers how many variables there are.
// Open: entries past the pins and the width, and of branches of blocks past the count: tables of 4,096 and 16 of which a part is in use.
pub fn bench<'a>(
    chip: ChipTables<'a>,
    y: usize,
    src: &mut Nets,
    outs: &mut [u16],
    list: &mut [u16],
) -> usize
    requires heads { Heads chip.sizes.inputs chip.sizes.pins chip.branches.now chip.nets.now chip.block.now }
    requires y_lt_outputs { (y < chip.sizes.outputs) × (chip.sizes.outputs ≤ 64) × (chip.sizes.outputs ≤ chip.sizes.pins) × (chip.blocks ≤ 4160) × (tally (rel_of chip.reached.now y) chip.blocks ≤ 16) }
    requires outs_len { (length outs.old ≡ 64) × ((x : ℕ) → get_or outs.old x 0 ≡ 0) × (length list.old ≡ 16) }
    ensures { Benched y chip.entry.sizes.inputs chip.entry.sizes.outputs chip.entry.sizes.pins chip.entry.blocks result chip.entry.nets.now chip.entry.branches.now chip.entry.block.now chip.entry.reached.now src.new outs.new list.new }
{
    let z = chip.sizes;
    let mut slots = [0u16; BLOCKS];
    let w = slots::variables(y, chip.blocks, chip.reached, &mut slots);
    slots::pin_slots(
        z.inputs,
        z.pins,
        &slots,
        chip.branches,
        chip.nets,
        chip.block,
        src,
    );
    out_slots(z.outputs, z.pins, src, outs);
    block_list(y, chip.blocks, chip.reached, list);
    w
}

// The tables of a chip of class 2 or 3. There are as many readers as pins of cells.
// Open: entries past the cells, blocks without a branch, and the order of the readers: each reader is found, in whatever order.
pub fn chip_tables(
    opened: &Chip,
    cone: &PinWords,
    reach: &mut [u64],
    heads: &mut [u16],
    readers: &mut [u16],
    input: &mut [u8],
)
    requires by_index { (s : Shape) × (reached : List ℕ) × (s.class ≢ 1)
        × Ready (netlist_of opened.now) opened.now.sizes.pins s opened.now.firsts opened.now.order opened.now.branches opened.now.block reached }
    requires reach_len { (length reach.old ≡ 1024) × (length input.old ≡ 4160) }
    requires heads_len { (length heads.old ≡ 5185) × ((x : ℕ) → get_or heads.old x 0 ≡ 0) }
    requires readers_len { (length readers.old ≡ opened.now.sizes.pins - opened.now.sizes.outputs) × ((x : ℕ) → get_or readers.old x 0 ≡ 0) }
    ensures { Fitted opened.now.sizes.inputs opened.now.sizes.cells opened.now.sizes.outputs opened.now.sizes.pins opened.now.kinds opened.now.counts opened.now.firsts opened.now.nets opened.now.order opened.now.branches opened.now.block cone.now reach.new heads.new readers.new input.new }
{
    let z = opened.sizes;
    readers::reaches(z.cells, &opened.firsts, &opened.order, cone, reach);
    readers::build(
        z.inputs,
        z.cells,
        z.pins - z.outputs,
        &opened.counts,
        &opened.firsts,
        &opened.branches,
        &opened.nets,
        &opened.order,
        &opened.block,
        heads,
        readers,
    );
    block_inputs(z.inputs, z.pins, &opened.branches, &opened.block, input);
}
