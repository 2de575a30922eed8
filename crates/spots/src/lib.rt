#![tactic(auto)]
// The place in a play of each variable of a pattern, worked out once for a chip, and the play of a pattern by these places.
ghost use Rattle.std.specs.Prelude.{◌≡◌, ◌≢◌, true, List, ℕ, suc, ◌+◌, ◌*◌, ◌^◌, ◌≤◌, ◌<◌, length, get_or};
ghost use Rattle.chip.specs.Inner.Tables.{sized};
ghost use Rattle.chip.specs.Search.{digit};
ghost use Rattle.structure.specs.Inner.Shape.{Ready};
ghost use Rattle.spots.specs.Marks.{Changed, BlockMark, RowMark, ListMark, SpotMark, PinMark, LevelMark, DepthMark, OneMark};
ghost use Rattle.spots.specs.Spots.{Drivers, RowHolds, Spread, BlockSpots};

use chip::{
    ALL_NETS, Block, Branches, Counts, Firsts, Kinds, Nets, Order, PINS, PinWords, Reached, Sizes,
    VARIABLES, VariableTable,
};
use order::Sorted;
use structure::Shape;

// Lists block s as number w of output z, if that is one of the first 16.
fn list_block(z: usize, w: usize, s: usize, lists: &mut [u16])
    requires { (z < 64) × (s < 65536) × (length lists.old ≡ 1024) }
    ensures { Changed (BlockMark z w s) lists.old lists.new }
{
    if w < 16 {
        lists[16 * z + w] = s as u16;
    }
}

// Lists the blocks that reach output z.
fn list_row(b: usize, z: usize, reached: &Reached, lists: &mut [u16])
    requires { (b ≤ 4160) × (z < 64) × (length lists.old ≡ 1024) }
    ensures { Changed (RowMark b z reached.now) lists.old lists.new }
{
    let mut w = 0;
    for (k, &outs) in reached[..b].iter().enumerate() {
        if words::has_bit(outs, z) {
            list_block(z, w, k, lists);
            w += 1;
        }
    }
}

// Lists the blocks that reach each output of the word outs.
fn list_blocks(o: usize, b: usize, outs: u64, reached: &Reached, lists: &mut [u16])
    requires { (o ≤ 64) × (b ≤ 4160) × (length lists.old ≡ 1024) }
    ensures { Changed (ListMark b o outs reached.now) lists.old lists.new }
{
    for z in 0..o {
        if words::has_bit(outs, z) {
            list_row(b, z, reached, lists);
        }
    }
}

// Puts a place for block s of output z, where it is listed.
fn put_spot(z: usize, s: usize, place: u16, lists: &VariableTable, spots: &mut [u16])
    requires { (z < 64) × (length spots.old ≡ 1024) }
    ensures { Changed (SpotMark 16 z s place lists.now) spots.old spots.new }
{
    for k in 0..16 {
        if usize::from(lists[16 * z + k]) == s {
            spots[16 * z + k] = place;
        }
    }
}

// Puts a place for block s of each output in the word.
fn put_outputs(o: usize, word: u64, s: usize, place: u16, lists: &VariableTable, spots: &mut [u16])
    requires { (o ≤ 64) × (length spots.old ≡ 1024) }
    ensures { Changed (PinMark o word s place lists.now) spots.old spots.new }
{
    if word == 0 {
        return;
    }
    for z in 0..o {
        if words::has_bit(word, z) {
            put_spot(z, s, place, lists, spots);
        }
    }
}

// Puts the places of one depth, whose clock begins at a place: each branch has its input's place in that clock, for the outputs of its word that are in outs.
fn put_level(
    z: Sizes,
    from: usize,
    outs: u64,
    branches: &Branches,
    block: &Block,
    words: &PinWords,
    lists: &VariableTable,
    spots: &mut [u16],
)
    requires { (z.outputs ≤ 64) × (z.pins ≤ 4096) × (from + z.inputs < 65536) × (length spots.old ≡ 1024) }
    ensures { Changed (LevelMark z.inputs z.outputs z.pins from outs branches.now block.now words.now lists.now) spots.old spots.new }
{
    let i = z.inputs;
    for p in 0..z.pins {
        let x = usize::from(branches[p]);
        if x < i {
            put_outputs(
                z.outputs,
                words[p] & outs,
                usize::from(block[p]),
                (from + x) as u16,
                lists,
                spots,
            );
        }
    }
}

// Puts the places of all depths, for the outputs in outs: depth e stands at clock d - e.
fn put_depths(
    z: Sizes,
    s: Shape,
    outs: u64,
    kinds: &Kinds,
    counts: &Counts,
    firsts: &Firsts,
    nets: &Nets,
    order: &Order,
    branches: &Branches,
    block: &Block,
    lists: &VariableTable,
    spots: &mut [u16],
)
    requires { ((reached : List ℕ) × Ready (sized z kinds.now counts.now nets.now) z.pins s firsts.now order.now branches.now block.now reached) × (length spots.old ≡ 1024) }
    ensures { Changed (DepthMark (sized z kinds.now counts.now nets.now) s.depth (suc s.depth) outs block.now lists.now) spots.old spots.new }
{
    let i = z.inputs;
    let d = s.depth;
    let cells = Sorted {
        sizes: z,
        kinds,
        counts,
        nets,
        firsts,
        order,
    };
    let mut before = [0u64; ALL_NETS];
    let mut at_net = [0u64; ALL_NETS];
    let mut words = [0u64; PINS];
    for e in 0..=d {
        levels::level(cells, e, &before, &mut words, &mut at_net);
        let t = d - e;
        put_level(z, t * i, outs, branches, block, &words, lists, spots);
        before = at_net;
    }
}

// Works out the places of a chip of class 2 or 3 for the outputs in outs, in one pass over the depths.
// Open: rows of outputs that are not asked for, and entries past the width: 16 entries for each output of which its width are in use.
pub fn find_spots<'a>(
    z: Sizes,
    s: Shape,
    outs: u64,
    kinds: &'a Kinds,
    counts: &'a Counts,
    firsts: &'a Firsts,
    nets: &'a Nets,
    order: &'a Order,
    branches: &'a Branches,
    block: &'a Block,
    reached: &'a Reached,
    spots: &mut VariableTable,
)
    requires ready { Ready (sized z kinds.now counts.now nets.now) z.pins s firsts.now order.now branches.now block.now reached.now }
    requires class_nonzero { s.class ≢ 1 }
    ensures { (y : ℕ) → digit y outs ≡ true → BlockSpots (sized z kinds.now counts.now nets.now) s.depth y reached.now spots.new }
{
    let mut lists = [0u16; VARIABLES];
    list_blocks(z.outputs, s.blocks, outs, reached, &mut lists);
    put_depths(
        z, s, outs, kinds, counts, firsts, nets, order, branches, block, &lists, spots,
    );
}

// Puts a one at the place of each bit of m that is set.
fn put_ones(z: usize, m: u64, spots: &VariableTable, play: &mut [u8])
    requires z_bound { z < 64 }
    requires by_index { (k : ℕ) → digit k m ≡ true → get_or spots.now (16 * z + k) 0 < length play.old }
    ensures { Changed (OneMark 16 z m spots.now) play.old play.new }
{
    for k in 0..16 {
        if words::has_bit(m, k) {
            play[usize::from(spots[16 * z + k])] = 1;
        }
    }
}

// Sets the play of d + 1 clocks of i inputs in which each bit of m stands at the place of its variable, by row z of the table.
pub fn play_spots(i: usize, d: usize, z: usize, m: usize, spots: &VariableTable, play: &mut [u8])
    requires d_bound { (d ≤ 255) × (z < 64) × ((D : Drivers) × RowHolds i d z D spots.now × (m < 2 ^ D.count)) }
    requires i_in_bounds { suc d * i ≤ length play.old }
    ensures { (D : Drivers) → RowHolds i d z D spots.now → m < 2 ^ D.count → Spread i d m D play.old play.new }
{
    sweeps::clear((d + 1) * i, play);
    put_ones(z, m as u64, spots, play);
}
