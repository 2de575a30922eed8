#![tactic(auto)]
// The answers for many faults of a chip at once, from one search: fault 2 * s + v is site s stuck at v; the nets are the first sites, then come the pins.
ghost use Rattle.std.specs.Prelude.{◌≡◌, ◌≢◌, ℕ, ◌+◌, ◌*◌, ◌≤◌, ◌<◌, length, get_or};
ghost use Rattle.chip.specs.Inner.Tables.{sized};
ghost use Rattle.levels.specs.Levels.{ReachMasks};
ghost use Rattle.opening.specs.Open.{netlist_of, IsOpen};
ghost use Rattle.known.specs.Setting.{Long};
ghost use Rattle.stages.specs.Stage.{Watch, OutsOnly};
ghost use Rattle.benches.specs.Benches.{Group};
ghost use Rattle.patterns.specs.Words.{Store};
ghost use Rattle.findings.specs.Answered.{Judged};
ghost use Rattle.verdicts.specs.Verdicts.{Sought, LikeTried, AllSofar};
ghost use Rattle.verdicts.specs.Prepared.{Prepared};

use chip::{ALL_NETS, BLOCKS, CELLS, HEADS, OUTPUTS, PINS, PinWords, SITES, WIDTH};
use events::{ChipTables, GroupTables, Trial};
use homes::Progress;
use opening::Chip;
use order::Sorted;
use rows::WORDS;

// The faults from `from` up to `to`.
#[derive(Drop)]
pub struct Span {
    pub from: usize,
    pub to: usize,
}

// Tries the faults at the outputs of `at`, which have the same blocks behind them as output y.
fn try_like<'a>(
    y: usize,
    at: u64,
    chip: ChipTables<'a>,
    goods: &mut [u64; WORDS],
    vals: &mut [u64; WORDS],
    known: &mut Progress,
    groups: &mut [u64; CELLS],
)
    requires prepared { Prepared chip }
    requires group { Group chip.sizes.outputs chip.blocks y at chip.reached.now }
    requires store { Store chip.sizes.cells goods.old vals.old }
    requires long { Long known.old.left known.old.best known.old.pat × OutsOnly chip.sizes.inputs chip.sizes.cells chip.sizes.outputs chip.sizes.pins known.old.left }
    requires watch { Watch chip.sizes.inputs chip.sizes.cells (sized chip.sizes chip.kinds.now chip.counts.now chip.nets.now) chip.counts.now chip.firsts.now chip.order.now known.old.left groups.old }
    ensures store_2 { Store chip.entry.sizes.cells goods.new vals.new }
    ensures watch_2 { Watch chip.entry.sizes.inputs chip.entry.sizes.cells (sized chip.entry.sizes chip.entry.kinds.now chip.entry.counts.now chip.entry.nets.now) chip.entry.counts.now chip.entry.firsts.now chip.entry.order.now known.new.left groups.new }
    ensures like_tried { LikeTried chip.entry.sizes.inputs chip.entry.sizes.cells chip.entry.sizes.outputs chip.entry.sizes.pins chip.entry.blocks y at chip.entry.kinds.now chip.entry.counts.now chip.entry.nets.now chip.entry.reached.now known.old.left known.old.best known.old.pat known.new.left known.new.best known.new.pat }
{
    let mut src = [0u16; PINS];
    let mut outs = [0u16; OUTPUTS];
    let mut list = [0u16; WIDTH];
    let width = benches::bench(chip, y, &mut src, &mut outs, &mut list);
    let group = GroupTables {
        width,
        slots: &src,
        outs: &outs,
        variables: &list,
    };
    let trial = Trial { chunk: 0, at };
    groups::try_group(trial, chip, group, goods, vals, known, groups);
}

// Tries the faults at all outputs, those with the same blocks behind them together.
fn try_outputs<'a>(chip: ChipTables<'a>, known: &mut Progress, groups: &mut [u64; CELLS])
    requires prepared { Prepared chip }
    requires long { Long known.old.left known.old.best known.old.pat × Sought chip.sizes.inputs chip.sizes.cells chip.sizes.outputs chip.sizes.pins chip.blocks chip.reached.now known.old.left known.old.best }
    requires watch { Watch chip.sizes.inputs chip.sizes.cells (sized chip.sizes chip.kinds.now chip.counts.now chip.nets.now) chip.counts.now chip.firsts.now chip.order.now known.old.left groups.old }
    ensures all_sofar { AllSofar chip.entry.sizes.inputs chip.entry.sizes.cells chip.entry.sizes.outputs chip.entry.sizes.pins chip.entry.blocks 0 chip.entry.kinds.now chip.entry.counts.now chip.entry.nets.now chip.entry.reached.now known.old.left known.new.left known.new.best known.new.pat }
    ensures groups_len { length groups.new ≡ 1024 }
{
    let z = chip.sizes;
    let mut goods = [0u64; WORDS];
    let mut vals = [0u64; WORDS];
    patterns::put_ones(&mut goods);
    patterns::put_ones(&mut vals);
    let mut todo = outputs::left_all(2 * (z.inputs + z.cells + z.pins), &known.left);
    for y in 0..z.outputs {
        if words::has_bit(todo, y) {
            let at = outputs::group_of(y, chip.blocks, chip.reached) & todo;
            try_like(y, at, chip, &mut goods, &mut vals, known, groups);
            todo = todo ^ at;
        }
    }
}

// Looks for each fault at the outputs that are left to it: its lowest output that some pattern shows it at, or 64, and the first pattern there.
// There are as many readers as pins of cells.
fn try_faults(opened: &Chip, cone: &PinWords, known: &mut Progress)
    requires opened { IsOpen opened.now × (opened.now.shape.class ≢ 1) × ReachMasks (netlist_of opened.now) cone.now }
    requires sought { Long known.old.left known.old.best known.old.pat × Sought opened.now.sizes.inputs opened.now.sizes.cells opened.now.sizes.outputs opened.now.sizes.pins opened.now.shape.blocks opened.now.reached known.old.left known.old.best }
    ensures { AllSofar opened.now.sizes.inputs opened.now.sizes.cells opened.now.sizes.outputs opened.now.sizes.pins opened.now.shape.blocks 0 opened.now.kinds opened.now.counts opened.now.nets opened.now.reached known.old.left known.new.left known.new.best known.new.pat }
{
    let z = opened.sizes;
    let mut sources = [0u16; ALL_NETS];
    let cells = Sorted {
        sizes: z,
        kinds: &opened.kinds,
        counts: &opened.counts,
        nets: &opened.nets,
        firsts: &opened.firsts,
        order: &opened.order,
    };
    pads::sources(cells, &mut sources);
    let mut groups = [0u64; CELLS];
    benches::start_groups(opened, &sources, &known.left, &mut groups);
    let m = z.pins - z.outputs;
    let mut reach = [0u64; CELLS];
    let mut heads = [0u16; HEADS];
    let mut readers = [0u16; PINS];
    let mut inputs = [0u8; BLOCKS];
    benches::chip_tables(
        opened,
        cone,
        &mut reach,
        &mut heads,
        &mut readers[..m],
        &mut inputs,
    );
    let chip = ChipTables {
        sizes: z,
        blocks: opened.shape.blocks,
        kinds: &opened.kinds,
        counts: &opened.counts,
        firsts: &opened.firsts,
        nets: &opened.nets,
        branches: &opened.branches,
        block: &opened.block,
        reached: &opened.reached,
        order: &opened.order,
        reach: &reach,
        heads: &heads,
        readers: &readers[..m],
        inputs: &inputs,
        sources: &sources,
    };
    try_outputs(chip, known, &mut groups);
}

// Looks for some faults of an open chip of class 2 or 3, of which nothing is known yet. Answers the outputs with more than 16 blocks behind them.
// Open: entries past the sites and outputs, of faults not asked for or with a wide output, and the pattern of a fault that none shows; all where no fault is asked for: nobody reads them.
pub fn judge(
    opened: &Chip,
    span: Span,
    sites: &mut [u64; SITES],
    widths: &mut [u16; OUTPUTS],
    known: &mut Progress,
) -> u64
    requires opened { IsOpen opened.now × (opened.now.shape.class ≢ 1) }
    requires from_le_to { (span.from ≤ span.to) × (span.to ≤ 2 * (opened.now.sizes.inputs + opened.now.sizes.cells + opened.now.sizes.pins)) }
    requires sites_len { (length sites.old ≡ 5184) × ((x : ℕ) → get_or sites.old x 0 ≡ 0) × (length widths.old ≡ 64) }
    requires fresh { Long known.old.left known.old.best known.old.pat × ((f : ℕ) → f < 10368 → get_or known.old.best f 0 ≡ 64) }
    ensures { (f : ℕ) → span.from ≤ f → f < span.to → Judged opened.now.sizes.inputs opened.now.sizes.cells opened.now.sizes.outputs opened.now.sizes.pins opened.now.shape.blocks f result opened.now.kinds opened.now.counts opened.now.nets opened.now.reached sites.new widths.new known.new.best known.new.pat }
{
    let z = opened.sizes;
    let mut cone = [0u64; PINS];
    let cells = Sorted {
        sizes: z,
        kinds: &opened.kinds,
        counts: &opened.counts,
        nets: &opened.nets,
        firsts: &opened.firsts,
        order: &opened.order,
    };
    levels::reach_masks(cells, &mut cone);
    outputs::site_masks(z.inputs + z.cells, z.pins, &opened.nets, &cone, sites);
    outputs::all_widths(z.outputs, opened.shape.blocks, &opened.reached, widths);
    let wides = outputs::wide_outputs(z.outputs, widths);
    known.left.fill(0);
    outputs::start(span.from, span.to, wides, sites, &mut known.left);
    try_faults(opened, &cone, known);
    wides
}
