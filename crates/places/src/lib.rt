#![tactic(auto)]
// All homes of a chip tried in one chunk. Fault 2 * site + v: the nets of i inputs and c cells are the first sites, then come the pins.
// left has for each fault the outputs at which it is still looked for, groups for each place the outputs left to its faults, or more; a place whose word is 0 is passed over.
ghost use Rattle.std.specs.Prelude.{◌≡◌, List, ℕ, ◌+◌, ◌*◌, ◌≤◌, ◌<◌, get_or};
ghost use Rattle.events.specs.Tables.{ChipOn};
ghost use Rattle.known.specs.Setting.{GoodRun, Long};
ghost use Rattle.stages.specs.Stage.{Apart};
ghost use Rattle.places.specs.Places.{PlaceDone, PlacesDone};

use chip::CELLS;
use events::{ChipTables, GroupTables, Trial};
use homes::{Cell, Progress};
use rows::WORDS;

// The cell at place p, with its sites.
fn cell_at<'a>(p: usize, chip: ChipTables<'a>) -> Cell
    requires chip { (src : List ℕ) × ChipOn chip src }
    requires p_lt_cells { (p < chip.sizes.cells) × (chip.sizes.inputs ≤ 64) }
    ensures { let j : ℕ = get_or chip.entry.order.now p 0 in let a : ℕ = get_or chip.entry.firsts.now j 0 in result ≡ record { place = p; number = j; kind = get_or chip.entry.kinds.now j 0; net = chip.entry.sizes.inputs + j; pin = chip.entry.sizes.inputs + chip.entry.sizes.cells + a; first = a; count = get_or chip.entry.counts.now j 0 } }
{
    let j = usize::from(chip.order[p]);
    let a = usize::from(chip.firsts[j]);
    Cell {
        place: p,
        number: j,
        kind: chip.kinds[j],
        net: chip.sizes.inputs + j,
        pin: chip.sizes.inputs + chip.sizes.cells + a,
        first: a,
        count: usize::from(chip.counts[j]),
    }
}

// Tries the faults of place p that are open at an output that is asked for.
fn try_place<'a, 'b>(
    p: usize,
    trial: Trial,
    chip: ChipTables<'a>,
    group: GroupTables<'b>,
    goods: &[u64; WORDS],
    vals: &mut [u64; WORDS],
    known: &mut Progress,
    groups: &mut [u64; CELLS],
)
    requires chip { ChipOn chip group.slots.now }
    requires apart { Apart chip.sizes.inputs chip.sizes.cells chip.counts.now chip.firsts.now group.slots.now chip.order.now }
    requires p_lt_cells { (p < chip.sizes.cells) × (vals.old ≡ goods.now) }
    requires good_run { GoodRun chip.sizes.cells trial.chunk trial.at chip.kinds.now chip.counts.now chip.firsts.now group.slots.now chip.order.now chip.reach.now group.outs.now goods.now }
    ensures place_done { PlaceDone p chip.entry.sizes.inputs chip.entry.sizes.cells trial.chunk trial.at chip.entry.kinds.now chip.entry.counts.now chip.entry.firsts.now group.entry.slots.now chip.entry.order.now chip.entry.reach.now group.entry.outs.now goods.now known.old.left known.old.best known.old.pat groups.old known.new.left known.new.best known.new.pat groups.new }
    ensures vals_after { vals.new ≡ goods.now }
{
    let u = groups[p] & trial.at;
    if u != 0 {
        let home = cell_at(p, chip);
        let narrowed = Trial {
            chunk: trial.chunk,
            at: u,
        };
        cells::try_home(&home, narrowed, chip, group, goods, vals, known);
        groups[p] = stages::left_at(home.net, home.pin, home.count, &known.left);
    }
}

// Tries the faults of all cells that are open at an output that is asked for.
// Open: what is known of these faults, but for how one chunk more takes it on; further outputs of cells, and entries past the cells: the tables need not be a chip's, and what was known before need not be right.
pub fn try_places<'a, 'b>(
    trial: Trial,
    chip: ChipTables<'a>,
    group: GroupTables<'b>,
    goods: &[u64; WORDS],
    vals: &mut [u64; WORDS],
    known: &mut Progress,
    groups: &mut [u64; CELLS],
)
    requires chip { ChipOn chip group.slots.now }
    requires apart { Apart chip.sizes.inputs chip.sizes.cells chip.counts.now chip.firsts.now group.slots.now chip.order.now }
    requires vals_value { vals.old ≡ goods.now }
    requires good_run { GoodRun chip.sizes.cells trial.chunk trial.at chip.kinds.now chip.counts.now chip.firsts.now group.slots.now chip.order.now chip.reach.now group.outs.now goods.now }
    requires long { Long known.old.left known.old.best known.old.pat }
    ensures places_done { PlacesDone chip.entry.sizes.cells chip.entry.sizes.inputs chip.entry.sizes.cells trial.chunk trial.at chip.entry.kinds.now chip.entry.counts.now chip.entry.firsts.now group.entry.slots.now chip.entry.order.now chip.entry.reach.now group.entry.outs.now goods.now known.old.left known.old.best known.old.pat groups.old known.new.left known.new.best known.new.pat groups.new }
    ensures vals_after { vals.new ≡ goods.now }
{
    for p in 0..chip.sizes.cells {
        try_place(p, trial, chip, group, goods, vals, known, groups);
    }
}
