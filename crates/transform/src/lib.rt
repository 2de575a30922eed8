#![tactic(auto)]
// Writes the transformed circuit: each block is an input with pad buffers of its own, each DFF a BUF, each DFFN a NOT.
ghost use Rattle.std.specs.Prelude.{◌≡◌, ◌⊎◌, ℕ, ◌+◌, ◌*◌, ◌≤◌, ◌<◌, length, get_or};
ghost use Rattle.chip.specs.Netlist.{out_pin};
ghost use Rattle.chip.specs.Transformed.{net_for, home};
ghost use Rattle.chip.specs.File.{transformed_file};
ghost use Rattle.chip.specs.Refusals.{Wrote};
ghost use Rattle.chip.specs.Replies.{TransformOn, TransformReply};
ghost use Rattle.opening.specs.Open.{netlist_of, IsOpen};
ghost use Rattle.transform.specs.Inner.New.{blocks_in, Copied, NewCells, moved, OldNets, CopyNets};

use chip::{CELLS, PINS, Reason, Refusal, Sizes, flat_kind};
use copies::Copies;
use opening::Chip;

// The cells of the transformed circuit: the old ones without their flip-flops, and behind them the copies, BUFs of one pin, which stand there already.
fn new_cells(opened: &Chip, flats: &mut [u8], sizes: &mut [u8])
    requires cells { opened.now.sizes.cells ≤ 1024 }
    requires tables { (length flats.old ≡ 1024) × (length sizes.old ≡ 1024) }
    requires copies { (j : ℕ) → j < 1024 → (get_or flats.old j 0 ≡ 0) × (get_or sizes.old j 0 ≡ 1) }
    ensures { NewCells opened.now.sizes.cells 1024 opened.now.kinds opened.now.counts flats.new sizes.new }
{
    let c = opened.sizes.cells;
    for j in 0..c {
        flats[j] = flat_kind(opened.kinds[j]);
    }
    sizes[..c].copy_from_slice(&opened.counts[..c]);
}

// The net that stands for a net in block k: for an input the block itself, for a cell of which the block has a copy that copy, for another cell the cell.
fn net_for(opened: &Chip, found: &Copies, k: usize, net: usize) -> u16
    requires copied { Copied opened.now found.now }
    requires block { (k < opened.now.shape.blocks) × (net < opened.now.sizes.inputs + opened.now.sizes.cells) }
    ensures { (K : Copied opened.now found.now) → result ≡ net_for (netlist_of opened.now) (blocks_in K.is_open) k net }
{
    let z = opened.sizes;
    let b = opened.shape.blocks;
    if net < z.inputs {
        return k as u16;
    }
    let j = net - z.inputs;
    let place = 1024 * k + j;
    if found.marks[place] == 1 {
        return (b + z.cells + usize::from(found.numbers[place])) as u16;
    }
    (b + j) as u16
}

// The net that pin p of the netlist names in the transformed circuit: what stands for it in a branch's block, and in the lowest block of the input for a pin into a pad buffer.
fn new_net(opened: &Chip, found: &Copies, p: usize) -> u16
    requires copied { Copied opened.now found.now }
    requires pin { p < opened.now.sizes.pins }
    ensures { (K : Copied opened.now found.now)
        → result ≡ net_for (netlist_of opened.now) (blocks_in K.is_open) (home (netlist_of opened.now) (blocks_in K.is_open) p) (get_or opened.now.nets p 0) }
{
    let i = opened.sizes.inputs;
    let net = usize::from(opened.nets[p]);
    if usize::from(opened.branches[p]) < i {
        return net_for(opened, found, usize::from(opened.block[p]), net);
    }
    if net < i {
        return found.lowest[net];
    }
    (opened.shape.blocks + (net - i)) as u16
}

// Where pin p of the netlist stands in the transformed circuit: output pins, from pin `first` on, come after those of m copies.
fn new_pin(first: usize, m: usize, p: usize) -> usize
    requires { p + m ≤ 4096 }
    ensures { result ≡ moved first m p }
{
    if p < first { p } else { p + m }
}

// The nets of the netlist's pins: those of the cells at their old places, those of the outputs, from pin `first` on, after the pins of the copies.
fn old_nets(opened: &Chip, found: &Copies, first: usize, table: &mut [u16])
    requires copied { Copied opened.now found.now }
    requires first_out { (first ≡ out_pin (netlist_of opened.now) 0) × (length table.old ≡ 4096) }
    ensures table_len { length table.new ≡ 4096 }
    ensures nets { (K : Copied opened.now found.now) → OldNets (netlist_of opened.now) (blocks_in K.is_open) found.now.count opened.now.sizes.pins table.new }
{
    for p in 0..opened.sizes.pins {
        let at = new_pin(first, found.count, p);
        table[at] = new_net(opened, found, p);
    }
}

// The nets of the copies' pins, from pin `first` on: what stands in a copy's block for the net that feeds its cell.
fn copy_nets(opened: &Chip, found: &Copies, first: usize, table: &mut [u16])
    requires copied { Copied opened.now found.now }
    requires first_out { (first ≡ out_pin (netlist_of opened.now) 0) × (length table.old ≡ 4096) }
    ensures nets { (K : Copied opened.now found.now) → CopyNets (netlist_of opened.now) (blocks_in K.is_open) (1024 * opened.now.shape.blocks) table.new }
    ensures others { (p : ℕ) → (p < first) ⊎ (first + found.now.count ≤ p) → get_or table.new p 0 ≡ get_or table.old p 0 }
{
    for l in 0..1024 * opened.shape.blocks {
        if found.marks[l] == 1 {
            let p = usize::from(opened.firsts[l % 1024]);
            let net = net_for(opened, found, l / 1024, usize::from(opened.nets[p]));
            table[first + usize::from(found.numbers[l])] = net;
        }
    }
}

// Writes the file of the transformed circuit with its copies, for which there is room.
fn put_tables(opened: &Chip, found: &Copies, out: &mut [u8])
    requires copied { Copied opened.now found.now }
    requires room { 6 + opened.now.shape.blocks + 2 * (opened.now.sizes.cells + found.now.count) + 2 * (opened.now.sizes.pins + found.now.count) + opened.now.sizes.outputs ≤ length out.old }
    ensures { (K : Copied opened.now found.now) → Wrote (transformed_file (netlist_of opened.now) (blocks_in K.is_open)) out.old out.new }
{
    let z = opened.sizes;
    let m = found.count;
    let mut flats = [0u8; CELLS];
    let mut sizes = [1u8; CELLS];
    new_cells(opened, &mut flats, &mut sizes);
    let first = z.pins - z.outputs;
    let mut table = [0u16; PINS];
    old_nets(opened, found, first, &mut table);
    copy_nets(opened, found, first, &mut table);
    let size = Sizes {
        inputs: opened.shape.blocks,
        cells: z.cells + m,
        outputs: z.outputs,
        pins: z.pins + m,
    };
    writing::put_file(size, &flats, &sizes, &table, out);
}

// Transforms an open chip: the file of its transformed circuit is written to the front of a lent buffer.
// Refuses 17 (too many blocks), 2 and 7 (too many cells or pins in the transformed circuit), 15 (too short a buffer); the buffer then stays as it was.
pub fn transform_on(opened: &Chip, out: &mut [u8]) -> Result<usize, Refusal>
    requires { IsOpen opened.now }
    ensures { TransformOn (netlist_of opened.now) out.old (result, out.new) }
{
    let z = opened.sizes;
    let b = opened.shape.blocks;
    if 64 < b {
        return Err(Reason::ManyBlocks.at(b));
    }
    let mut found = Copies::none();
    copies::find_copies(
        z,
        b,
        &opened.firsts,
        &opened.nets,
        &opened.branches,
        &opened.block,
        &mut found,
    );
    let cells = z.cells + found.count;
    if 1024 < cells {
        return Err(Reason::BadCount.at(0));
    }
    let pins = z.pins + found.count;
    if 4096 < pins {
        return Err(Reason::ManyPins.at(0));
    }
    let length = 6 + b + 2 * cells + 2 * pins + z.outputs;
    if out.len() < length {
        return Err(Reason::ShortBuffer.at(length));
    }
    put_tables(opened, &found, out);
    Ok(length)
}

// Transforms a netlist file, or refuses it: 1 to 10, 17, 2, 7, 15.
pub fn transform(file: &[u8], out: &mut [u8]) -> Result<usize, Refusal>
    ensures { TransformReply file.now out.old (result, out.new) }
{
    let opened = opening::open(file)?;
    transform_on(&opened, out)
}
