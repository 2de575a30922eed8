#![tactic(auto)]
// Opens a netlist file, with which every call begins: refused, or the open chip with its sizes, its shape and its tables.
ghost use Rattle.chip.specs.Got.{got};
ghost use Rattle.chip.specs.Replies.{ClassOn, ClassReply};
ghost use Rattle.opening.specs.Open.{netlist_of, IsOpen, OpenIs};

use chip::{
    BLOCKS, Block, Branches, CELLS, Classed, Counts, FIRSTS, Firsts, Kinds, Nets, Order, PINS,
    Reached, Refusal, Sizes,
};
use structure::Shape;

// An open chip, with all that calls on it need: the kind and the pin count of each cell and the net of each pin, as the file has
// them; the first pin of each cell and an order of the cells; for each pin the input that it is a branch of and its block; and
// the outputs that each block reaches.
#[derive(Clone, Copy)]
pub struct Chip {
    pub sizes: Sizes,
    pub shape: Shape,
    pub kinds: Kinds,
    pub counts: Counts,
    pub nets: Nets,
    pub firsts: Firsts,
    pub order: Order,
    pub branches: Branches,
    pub block: Block,
    pub reached: Reached,
}

// Opens a file. Refuses 1 to 8 (reading), 9 (a loop), 10 (a depth over 255).
// Open: of an open chip as `structure::prepare`: an order is not one.
pub fn open(file: &[u8]) -> Result<Chip, Refusal>
    ensures { OpenIs file.now result }
{
    let t = netlist::read(file)?;
    let mut firsts = [0u16; FIRSTS];
    let mut order = [0u16; CELLS];
    let mut branches = [0u16; PINS];
    let mut block = [0u16; PINS];
    let mut reached = [0u64; BLOCKS];
    let shape = structure::prepare(
        t.sizes,
        &t.kinds,
        &t.counts,
        &t.nets,
        &mut firsts,
        &mut order,
        &mut branches,
        &mut block,
        &mut reached,
    )?;
    Ok(Chip {
        sizes: t.sizes,
        shape,
        kinds: t.kinds,
        counts: t.counts,
        nets: t.nets,
        firsts,
        order,
        branches,
        block,
        reached,
    })
}

// Names the class of an open chip, with its depth and the number of its blocks.
pub fn class_on(opened: &Chip) -> Classed
    requires { IsOpen opened.now }
    ensures { ClassOn (netlist_of opened.now) (got result) }
{
    let s = opened.shape;
    Classed {
        class: s.class,
        depth: s.depth,
        blocks: s.blocks,
    }
}

// Names the class of a netlist file, or refuses it: 1 to 10.
pub fn class_of(file: &[u8]) -> Result<Classed, Refusal>
    ensures { ClassReply file.now result }
{
    let opened = open(file)?;
    Ok(class_on(&opened))
}
