#![tactic(auto)]
// The outputs in groups with the same blocks behind them, each group over the chunks of its patterns.
ghost use Rattle.std.specs.Prelude.{◌≡◌, ℕ, ◌+◌, ◌*◌, ◌<◌, Bool, List};
ghost use Rattle.chip.specs.Inner.Tables.{tabled};
ghost use Rattle.known.specs.Setting.{GoodRun, Long, Went};
ghost use Rattle.stages.specs.Stage.{Watch, OutsOnly, Stage};
ghost use Rattle.patterns.specs.Words.{Store};
ghost use Rattle.groups.specs.Chunks.{Alone, ChunkStep, ChunkTried, GroupTried};

use chip::CELLS;
use events::{ChipTables, GroupTables, Trial};
use homes::Progress;
use rows::WORDS;

// Tries the faults that are runs of their own, or looked at without one.
fn try_alone<'a, 'b>(
    trial: Trial,
    chip: ChipTables<'a>,
    group: GroupTables<'b>,
    goods: &[u64; WORDS],
    vals: &mut [u64; WORDS],
    known: &mut Progress,
)
    requires by_index { (cone : List ℕ) × (low : ℕ → ℕ) × (rel : ℕ → ℕ → Bool) × Stage chip.sizes.inputs chip.sizes.cells chip.sizes.outputs chip.sizes.pins group.width trial.at chip.kinds.now chip.counts.now chip.firsts.now chip.nets.now chip.order.now chip.branches.now chip.sources.now cone chip.reach.now chip.heads.now chip.readers.now group.slots.now group.outs.now group.variables.now chip.inputs.now low rel }
    requires vals_value { vals.old ≡ goods.now }
    requires good_run { GoodRun chip.sizes.cells trial.chunk trial.at chip.kinds.now chip.counts.now chip.firsts.now group.slots.now chip.order.now chip.reach.now group.outs.now goods.now }
    requires long { Long known.old.left known.old.best known.old.pat }
    ensures went { Went (Alone chip.entry.sizes.inputs chip.entry.sizes.cells chip.entry.sizes.outputs chip.entry.sizes.pins chip.entry.firsts.now chip.entry.sources.now) (ChunkStep chip.entry.sizes.inputs chip.entry.sizes.cells chip.entry.sizes.outputs chip.entry.sizes.pins group.entry.width trial.chunk trial.at chip.entry.kinds.now chip.entry.counts.now chip.entry.firsts.now chip.entry.nets.now chip.entry.order.now chip.entry.reach.now group.entry.slots.now group.entry.outs.now group.entry.variables.now chip.entry.inputs.now goods.now) known.old.left known.old.best known.old.pat known.new.left known.new.best known.new.pat }
    ensures vals_after { vals.new ≡ goods.now }
{
    alone::try_inputs(trial, chip, group, goods, vals, known);
    buffers::try_pads(trial, chip, group, goods, vals, known);
    alone::try_outs(trial, chip.sizes, group, goods, known);
}

// Tries all faults that are open at an output that is asked for.
fn try_chunk<'a, 'b>(
    trial: Trial,
    chip: ChipTables<'a>,
    group: GroupTables<'b>,
    goods: &mut [u64; WORDS],
    vals: &mut [u64; WORDS],
    known: &mut Progress,
    groups: &mut [u64; CELLS],
)
    requires by_index { (cone : List ℕ) × (low : ℕ → ℕ) × (rel : ℕ → ℕ → Bool) × Stage chip.sizes.inputs chip.sizes.cells chip.sizes.outputs chip.sizes.pins group.width trial.at chip.kinds.now chip.counts.now chip.firsts.now chip.nets.now chip.order.now chip.branches.now chip.sources.now cone chip.reach.now chip.heads.now chip.readers.now group.slots.now group.outs.now group.variables.now chip.inputs.now low rel }
    requires chunk_bound { (trial.chunk < 4096) × Store chip.sizes.cells goods.old vals.old }
    requires long { Long known.old.left known.old.best known.old.pat × OutsOnly chip.sizes.inputs chip.sizes.cells chip.sizes.outputs chip.sizes.pins known.old.left × Watch chip.sizes.inputs chip.sizes.cells (tabled chip.sizes.inputs chip.sizes.cells chip.sizes.outputs chip.kinds.now chip.counts.now chip.nets.now) chip.counts.now chip.firsts.now chip.order.now known.old.left groups.old }
    ensures store { Store chip.entry.sizes.cells goods.new vals.new }
    ensures watch { Watch chip.entry.sizes.inputs chip.entry.sizes.cells (tabled chip.entry.sizes.inputs chip.entry.sizes.cells chip.entry.sizes.outputs chip.entry.kinds.now chip.entry.counts.now chip.entry.nets.now) chip.entry.counts.now chip.entry.firsts.now chip.entry.order.now known.new.left groups.new }
    ensures chunk_tried { ChunkTried chip.entry.sizes.inputs chip.entry.sizes.cells chip.entry.sizes.outputs chip.entry.sizes.pins group.entry.width trial.chunk trial.at chip.entry.kinds.now chip.entry.counts.now chip.entry.firsts.now chip.entry.nets.now chip.entry.order.now chip.entry.branches.now chip.entry.sources.now chip.entry.reach.now chip.entry.heads.now chip.entry.readers.now group.entry.slots.now group.entry.outs.now group.entry.variables.now chip.entry.inputs.now known.old.left known.old.best known.old.pat known.new.left known.new.best known.new.pat }
{
    patterns::good_words(trial, chip, group, goods, vals);
    try_alone(trial, chip, group, goods, vals, known);
    places::try_places(trial, chip, group, goods, vals, known, groups);
}

// Tries all patterns of a group of outputs with `width` blocks behind each, 1,024 at a time from the first on, while some fault is open at one of them.
// Open: words of the last chunk, further outputs of cells, and entries past the faults: scratch, and tables of 10,368 of which the faults are in use.
pub fn try_group<'a, 'b>(
    trial: Trial,
    chip: ChipTables<'a>,
    group: GroupTables<'b>,
    goods: &mut [u64; WORDS],
    vals: &mut [u64; WORDS],
    known: &mut Progress,
    groups: &mut [u64; CELLS],
)
    requires by_index { (cone : List ℕ) × (low : ℕ → ℕ) × (rel : ℕ → ℕ → Bool) × Stage chip.sizes.inputs chip.sizes.cells chip.sizes.outputs chip.sizes.pins group.width trial.at chip.kinds.now chip.counts.now chip.firsts.now chip.nets.now chip.order.now chip.branches.now chip.sources.now cone chip.reach.now chip.heads.now chip.readers.now group.slots.now group.outs.now group.variables.now chip.inputs.now low rel }
    requires store { Store chip.sizes.cells goods.old vals.old }
    requires long { Long known.old.left known.old.best known.old.pat × OutsOnly chip.sizes.inputs chip.sizes.cells chip.sizes.outputs chip.sizes.pins known.old.left × Watch chip.sizes.inputs chip.sizes.cells (tabled chip.sizes.inputs chip.sizes.cells chip.sizes.outputs chip.kinds.now chip.counts.now chip.nets.now) chip.counts.now chip.firsts.now chip.order.now known.old.left groups.old }
    ensures store_2 { Store chip.entry.sizes.cells goods.new vals.new }
    ensures watch { Watch chip.entry.sizes.inputs chip.entry.sizes.cells (tabled chip.entry.sizes.inputs chip.entry.sizes.cells chip.entry.sizes.outputs chip.entry.kinds.now chip.entry.counts.now chip.entry.nets.now) chip.entry.counts.now chip.entry.firsts.now chip.entry.order.now known.new.left groups.new }
    ensures group_tried { GroupTried chip.entry.sizes.inputs chip.entry.sizes.cells chip.entry.sizes.outputs chip.entry.sizes.pins group.entry.width trial.at chip.entry.kinds.now chip.entry.counts.now chip.entry.firsts.now chip.entry.nets.now chip.entry.order.now chip.entry.branches.now chip.entry.sources.now chip.entry.reach.now chip.entry.heads.now chip.entry.readers.now group.entry.slots.now group.entry.outs.now group.entry.variables.now chip.entry.inputs.now known.old.left known.old.best known.old.pat known.new.left known.new.best known.new.pat }
{
    let z = chip.sizes;
    let words = (1usize << group.width).div_ceil(64);
    for q in (0..words).step_by(16) {
        let u = outputs::left_all(2 * (z.inputs + z.cells + z.pins), &known.left) & trial.at;
        if u == 0 {
            return;
        }
        let next = Trial { chunk: q, at: u };
        try_chunk(next, chip, group, goods, vals, known, groups);
    }
}
