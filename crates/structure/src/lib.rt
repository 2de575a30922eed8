#![tactic(auto)]
// From a netlist file to the order of its cells, its depth, blocks and class.
ghost use Rattle.std.specs.Prelude.{◌≡◌, List, ℕ, suc, ◌≤◌, ◌<◌, get_or};
ghost use Rattle.chip.specs.Netlist.{Netlist, all_pins};
ghost use Rattle.chip.specs.Inner.Limits.{InLimits};
ghost use Rattle.chip.specs.Inner.Tables.{sized};
ghost use Rattle.chip.specs.Class.{Within};
ghost use Rattle.order.specs.Order.{Ordered};
ghost use Rattle.order.specs.Sorted.{netlist_in};
ghost use Rattle.levels.specs.Levels.{MasksBefore, LevelMasks};
ghost use Rattle.levels.specs.Branches.{Branched};
ghost use Rattle.chip.specs.Inner.Labels.{Labels};
ghost use Rattle.blocks.specs.Labels.{label_of, LevelJoined};
ghost use Rattle.balance.specs.Balance.{FewLabels, SeenMasks, LowestUneven};
ghost use Rattle.structure.specs.Inner.Shape.{InOrder, OneInput, Deeper, DepthIs, Seen, Evened, Classified, FoundIs};

use chip::{
    ALL_NETS, Block, Branches, Counts, Firsts, INPUTS, Kinds, NetWords, Nets, Order, PINS,
    PinWords, Reached, Reason, Refusal, Sizes,
};
use order::Sorted;

// The depth, and the lowest input that reaches an output with two depths, or the number of inputs if none does.
#[derive(Clone, Copy, Debug, PartialEq, Eq)]
pub struct Measured {
    pub depth: usize,
    pub input: usize,
}

// What is worked out of a netlist: its depth, its class, the number of its blocks,
// and for class 1 the lowest input with a block of two depths to one output.
#[derive(Clone, Copy, Debug, PartialEq, Eq)]
pub struct Shape {
    pub depth: usize,
    pub class: u8,
    pub blocks: usize,
    pub place: usize,
}

// Joins the branches that reach one output at the depth whose masks the pins and nets have; there are none where no input's net
// reaches one.
fn join_inputs(
    i: usize,
    o: usize,
    n: usize,
    branches: &Branches,
    reached: &NetWords,
    pins: &PinWords,
    low: &mut Block,
)
    requires { (i ≤ 64) × (o ≤ 64) × (n ≤ 4096) }
    ensures { (N : Netlist) (e : ℕ) (order : List ℕ) → InLimits N → Ordered N order → N.outs ≡ o → Branched N i n branches.now
        → LevelMasks N e pins.now reached.now → Labels N (label_of N low.old)
        → LevelJoined N e (label_of N low.old) (label_of N low.new) }
{
    if levels::any_net(i, reached) == 0 {
        return;
    }
    blocks::join_level(i, o, n, branches, pins, low);
}

// One depth further: the masks at depth e, and the branches joined that reach one output at it. The answer is the outputs reached.
fn deeper(
    cells: Sorted<'_>,
    e: usize,
    branches: &Branches,
    before: &NetWords,
    after: &mut NetWords,
    pins: &mut PinWords,
    low: &mut Block,
) -> u64
    requires in_order { InOrder cells branches.now }
    requires masks_before { MasksBefore (netlist_in cells) e before.now }
    requires labels { Labels (netlist_in cells) (label_of (netlist_in cells) low.old) }
    ensures { Deeper (netlist_in cells.entry) e after.new
        (label_of (netlist_in cells.entry) low.old)
        (label_of (netlist_in cells.entry) low.new) result }
{
    let z = cells.sizes;
    levels::level(cells, e, before, pins, after);
    join_inputs(z.inputs, z.outputs, z.pins, branches, after, pins, low);
    levels::any_net(z.inputs + z.cells, after)
}

// The depth, with the blocks joined on the way, and the lowest input that reaches an output with two depths. Refuses 10.
fn join_blocks(cells: Sorted<'_>, branches: &Branches, low: &mut Block) -> Result<Measured, Refusal>
    requires { InOrder cells branches.now }
    ensures { DepthIs (netlist_in cells.entry) branches.now
        (label_of (netlist_in cells.entry) low.new) result }
{
    let (i, c) = (cells.sizes.inputs, cells.sizes.cells);
    let mut before = [0u64; ALL_NETS];
    let mut after = [0u64; ALL_NETS];
    let mut pins = [0u64; PINS];
    let mut seen = [0u64; INPUTS];
    let mut lowest = i;
    blocks::single_labels(low);
    let mut e = 0;
    loop {
        let outs = deeper(cells, e, branches, &before, &mut after, &mut pins, low);
        if outs == 0 {
            return Ok(Measured {
                depth: e - 1,
                input: lowest,
            });
        }
        if e == 256 {
            return Err(Reason::TooDeep.at(words::lowest_bit(outs)));
        }
        lowest = balance::meet_inputs(i, lowest, &after, &mut seen);
        levels::keep(i + c, &after, &mut before);
        e += 1;
    }
}

// The lowest input below `best` with a branch that reaches an output that its label was seen at, at the depth whose masks the pins
// and nets have; else `best`. Each branch's label is then seen at these outputs. There is nothing to do where no input's net
// reaches an output.
fn uneven_at(
    i: usize,
    n: usize,
    best: usize,
    branches: &Branches,
    reached: &NetWords,
    pins: &PinWords,
    labels: &Block,
    seen: &mut Reached,
) -> usize
    requires { (i ≤ 64) × (n ≤ 4096) × FewLabels i n branches.now labels.now }
    ensures { (N : Netlist) (e : ℕ) (order : List ℕ) → InLimits N → Ordered N order → Branched N i n branches.now
        → LevelMasks N e pins.now reached.now → SeenMasks N labels.now e seen.old
        → Seen N labels.now e best seen.new result }
{
    if levels::any_net(i, reached) == 0 {
        return best;
    }
    let lowest = balance::conflict(i, n, best, branches, pins, labels, seen);
    balance::see(i, n, branches, pins, labels, seen);
    lowest
}

// The lowest input with branches of one label that reach one output with two depths; the number of inputs if there is none.
// Afterwards `seen`, which begins with zeros, has the outputs that each label reaches.
fn lowest_uneven(
    cells: Sorted<'_>,
    d: usize,
    branches: &Branches,
    labels: &Block,
    seen: &mut Reached,
) -> usize
    requires in_order { InOrder cells branches.now }
    requires d_bound { (d ≤ 255) × Within (netlist_in cells) d }
    requires few_labels { FewLabels cells.sizes.inputs cells.sizes.pins branches.now labels.now }
    requires one_input { OneInput (netlist_in cells) labels.now }
    requires by_index { (l : ℕ) → l < 4160 → get_or seen.old l 0 ≡ 0 }
    ensures { Evened (netlist_in cells.entry) labels.now d seen.new result }
{
    let (i, c) = (cells.sizes.inputs, cells.sizes.cells);
    let mut before = [0u64; ALL_NETS];
    let mut after = [0u64; ALL_NETS];
    let mut pins = [0u64; PINS];
    let mut lowest = i;
    for e in 0..d + 1 {
        levels::level(cells, e, &before, &mut pins, &mut after);
        lowest = uneven_at(
            i,
            cells.sizes.pins,
            lowest,
            branches,
            &after,
            &pins,
            labels,
            seen,
        );
        levels::keep(i + c, &after, &mut before);
    }
    lowest
}

// Each label is seen at the outputs that a branch with it reaches, at whatever depth.
fn see_all(cells: Sorted<'_>, branches: &Branches, labels: &Block, seen: &mut Reached)
    requires in_order { InOrder cells branches.now }
    requires few_labels { FewLabels cells.sizes.inputs cells.sizes.pins branches.now labels.now }
    requires by_index { (l : ℕ) → l < 4160 → get_or seen.old l 0 ≡ 0 }
    ensures { (d : ℕ) → Within (netlist_in cells.entry) d → SeenMasks (netlist_in cells.entry) labels.now (suc d) seen.new }
{
    let mut pins = [0u64; PINS];
    levels::reach_masks(cells, &mut pins);
    balance::see(
        cells.sizes.inputs,
        cells.sizes.pins,
        branches,
        &pins,
        labels,
        seen,
    );
}

// `lowest_uneven` for the blocks, given the lowest input x that reaches an output with two depths: where there is none, no
// block does, and only the outputs that each block reaches are wanted.
fn uneven_block(
    cells: Sorted<'_>,
    d: usize,
    x: usize,
    branches: &Branches,
    block: &Block,
    seen: &mut Reached,
) -> usize
    requires in_order { InOrder cells branches.now }
    requires d_bound { (d ≤ 255) × Within (netlist_in cells) d }
    requires few_labels { FewLabels cells.sizes.inputs cells.sizes.pins branches.now block.now }
    requires one_input { OneInput (netlist_in cells) block.now }
    requires by_index { (l : ℕ) → l < 4160 → get_or seen.old l 0 ≡ 0 }
    requires lowest_uneven { LowestUneven (netlist_in cells) branches.now x }
    ensures { Evened (netlist_in cells.entry) block.now d seen.new result }
{
    let i = cells.sizes.inputs;
    if x < i {
        return lowest_uneven(cells, d, branches, block, seen);
    }
    see_all(cells, branches, block, seen);
    i
}

// The class: 1 if a block has two depths to one output, else 2 if an input has, else 3.
fn classify(i: usize, block: usize, input: usize) -> u8
    ensures { Classified i block input result }
{
    if block < i {
        1
    } else if input < i {
        2
    } else {
        3
    }
}

// Prepares a chip whose cells are in order and whose branches are known: its depth, its blocks, what they reach, and its class.
// Refuses 10.
fn prepare_ordered(
    cells: Sorted<'_>,
    branches: &Branches,
    block: &mut Block,
    reached: &mut Reached,
) -> Result<Shape, Refusal>
    requires in_order { InOrder cells branches.now }
    requires by_index { (l : ℕ) → l < 4160 → get_or reached.old l 0 ≡ 0 }
    ensures { FoundIs (netlist_in cells.entry) cells.entry.firsts.now cells.entry.order.now branches.now block.new reached.new result }
{
    let i = cells.sizes.inputs;
    let mut low = [0u16; PINS];
    let w = join_blocks(cells, branches, &mut low)?;
    let d = w.depth;
    let x = w.input;
    let b = blocks::number_blocks(i, cells.sizes.pins, branches, &low, block);
    let y = uneven_block(cells, d, x, branches, block, reached);
    Ok(Shape {
        depth: d,
        class: classify(i, y, x),
        blocks: b,
        place: y,
    })
}

// Prepares a chip from the tables of a netlist that was read. Refuses 9 and 10.
// Open: the order, entries past what is in use, the place of 11 in class 2 and 3; all tables of a refused netlist: so the steps leave them, and of a refused netlist nobody reads them.
pub fn prepare<'a>(
    z: Sizes,
    kinds: &'a Kinds,
    counts: &'a Counts,
    nets: &'a Nets,
    firsts: &'a mut Firsts,
    order: &'a mut Order,
    branches: &'a mut Branches,
    block: &mut Block,
    reached: &mut Reached,
) -> Result<Shape, Refusal>
    requires in_limits { InLimits (sized z kinds.now counts.now nets.now) }
    requires pins_value { z.pins ≡ all_pins (sized z kinds.now counts.now nets.now) }
    requires by_index { (l : ℕ) → l < 4160 → get_or reached.old l 0 ≡ 0 }
    ensures { FoundIs (sized z kinds.now counts.now nets.now) firsts.new order.new branches.new block.new reached.new result }
{
    let i = z.inputs;
    let c = z.cells;
    order::first_pins(counts, c, firsts);
    if let Err(unplaced) = order::order_cells(i, c, firsts, nets, order) {
        let net = loops::lowest_on_loop(i, c, firsts, nets, unplaced.cell);
        return Err(Reason::Looped.at(net));
    }
    let cells = Sorted {
        sizes: z,
        kinds,
        counts,
        nets,
        firsts,
        order,
    };
    pads::branches(cells, branches);
    prepare_ordered(cells, branches, block, reached)
}
