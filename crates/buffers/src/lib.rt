#![tactic(auto)]
// The faults in pad buffers, each a run of its own.
// Fault 2 * site + v: the nets of inputs and cells are the first sites, then come the pins, the last ones those of the outputs.
ghost use Rattle.std.specs.Prelude.{◌≡◌, List, ℕ, ◌+◌, ◌-◌, ◌*◌, ◌/◌, ◌≤◌, ◌<◌, length, get_or};
ghost use Rattle.chip.specs.Netlist.{all_pins};
ghost use Rattle.chip.specs.Inner.Limits.{InLimits};
ghost use Rattle.chip.specs.Inner.Tables.{tabled, FirstPins, BranchTable};
ghost use Rattle.order.specs.Order.{Ordered};
ghost use Rattle.events.specs.Events.{Chip};
ghost use Rattle.known.specs.Setting.{Long, Went};
ghost use Rattle.buffers.specs.Buffers.{Tables, Faulty, FaultRan, FaultStep, CellFault, PadFault};

use chip::{OUTPUTS, PINS};
use events::{ChipTables, GroupTables, Trial};
use homes::{Progress, Run};
use rows::WORDS;

// The slots of the pins under fault f.
fn faulty_slots<'a>(f: usize, chip: ChipTables<'a>, src: &[u16], faulty: &mut [u16; PINS])
    requires in_limits { InLimits (tabled chip.sizes.inputs chip.sizes.cells chip.sizes.outputs chip.kinds.now chip.counts.now chip.nets.now) }
    requires pins_value { chip.sizes.pins ≡ all_pins (tabled chip.sizes.inputs chip.sizes.cells chip.sizes.outputs chip.kinds.now chip.counts.now chip.nets.now) }
    requires first_pins { FirstPins (tabled chip.sizes.inputs chip.sizes.cells chip.sizes.outputs chip.kinds.now chip.counts.now chip.nets.now) chip.firsts.now }
    requires ordered { Ordered (tabled chip.sizes.inputs chip.sizes.cells chip.sizes.outputs chip.kinds.now chip.counts.now chip.nets.now) chip.order.now }
    requires branch_table { BranchTable (tabled chip.sizes.inputs chip.sizes.cells chip.sizes.outputs chip.kinds.now chip.counts.now chip.nets.now) chip.branches.now }
    requires faulty_len { (length faulty.old ≡ 4096) × (chip.sizes.pins ≤ length src.now) }
    requires cells_in_bounds { (chip.sizes.cells ≤ length chip.order.now) × ((t : ℕ) → t < chip.sizes.cells → (get_or chip.order.now t 0 < length chip.kinds.now) × (get_or chip.order.now t 0 < length chip.firsts.now)) }
    ensures { Faulty chip.entry.sizes.inputs chip.entry.sizes.cells chip.entry.sizes.outputs chip.entry.sizes.pins f chip.entry.kinds.now chip.entry.counts.now chip.entry.nets.now src.now faulty.new }
{
    let z = chip.sizes;
    let mut decided = [2u8; PINS];
    faults::decided(
        z.inputs,
        z.cells,
        z.outputs,
        z.pins,
        chip.kinds,
        chip.counts,
        chip.firsts,
        chip.nets,
        chip.order,
        chip.branches,
        faults::fault_at(z.inputs + z.cells, f),
        &mut decided,
    );
    slots::fault_slots(z.pins, &decided, src, faulty);
}

// Works out the cells that reach an output that is asked for on the slots of fault f, looks for it there, and puts the good words back.
fn run_fault<'a, 'b>(
    f: usize,
    trial: Trial,
    chip: ChipTables<'a>,
    group: GroupTables<'b>,
    faulty: &[u16; PINS],
    goods: &[u64; WORDS],
    vals: &mut [u64; WORDS],
    known: &mut Progress,
)
    requires by_index { (heads readers : List ℕ) × Chip chip.sizes.cells chip.kinds.now chip.counts.now chip.firsts.now faulty.now chip.order.now chip.reach.now heads readers }
    requires outputs_bound { (chip.sizes.outputs ≤ 64) × (chip.sizes.outputs ≤ chip.sizes.pins) × (chip.sizes.pins ≤ length faulty.now) × ((z : ℕ) → z < chip.sizes.outputs → 16 * get_or faulty.now (chip.sizes.pins - chip.sizes.outputs + z) 0 + 16 ≤ 16672) }
    requires chunk_bound { (trial.chunk < 4096) × (f < 10368) × (length group.outs.now ≡ 64) × (length goods.now ≡ 16672) × ((z : ℕ) → z < 64 → 16 * get_or group.outs.now z 0 + 16 ≤ 16672) }
    requires vals_value { (vals.old ≡ goods.now) × Long known.old.left known.old.best known.old.pat }
    ensures fault_ran { FaultRan chip.entry.sizes.cells chip.entry.sizes.outputs chip.entry.sizes.pins f trial.chunk trial.at chip.entry.kinds.now chip.entry.counts.now chip.entry.firsts.now faulty.now chip.entry.order.now chip.entry.reach.now group.entry.outs.now goods.now known.old.left known.old.best known.old.pat known.new.left known.new.best known.new.pat }
    ensures vals_after { vals.new ≡ goods.now }
{
    let o = chip.sizes.outputs;
    let n = chip.sizes.pins;
    let mut ends = [0u16; OUTPUTS];
    homes::copy_pins(n - o, o, faulty, &mut ends);
    events::good_cells(trial.at, chip, faulty, vals);
    let run = Run {
        outs: group.outs,
        ends: &ends,
        goods,
        vals,
    };
    known::look_all(f, trial.chunk, trial.at, run, known);
    events::copy_words(16672, goods, vals);
}

// Tries fault f if it is open at an output that is asked for.
fn try_fault<'a, 'b>(
    f: usize,
    trial: Trial,
    chip: ChipTables<'a>,
    group: GroupTables<'b>,
    goods: &[u64; WORDS],
    vals: &mut [u64; WORDS],
    known: &mut Progress,
)
    requires f_bound { f / 2 < chip.sizes.inputs + chip.sizes.cells + chip.sizes.pins }
    requires tables { Tables chip.sizes.inputs chip.sizes.cells chip.sizes.outputs chip.sizes.pins trial.chunk trial.at chip.kinds.now chip.counts.now chip.firsts.now chip.nets.now chip.order.now chip.branches.now chip.reach.now group.slots.now group.outs.now goods.now }
    requires vals_value { (vals.old ≡ goods.now) × Long known.old.left known.old.best known.old.pat }
    ensures went { Went (λ x. x ≡ f) (FaultStep chip.entry.sizes.inputs chip.entry.sizes.cells chip.entry.sizes.outputs trial.chunk trial.at chip.entry.kinds.now chip.entry.counts.now chip.entry.firsts.now chip.entry.nets.now chip.entry.order.now chip.entry.reach.now group.entry.slots.now group.entry.outs.now goods.now) known.old.left known.old.best known.old.pat known.new.left known.new.best known.new.pat }
    ensures vals_after { vals.new ≡ goods.now }
{
    let u = known.left[f] & trial.at;
    if u != 0 {
        let mut faulty = [0u16; PINS];
        faulty_slots(f, chip, group.slots, &mut faulty);
        let narrowed = Trial { at: u, ..trial };
        run_fault(f, narrowed, chip, group, &faulty, goods, vals, known);
    }
}

// Tries the four faults of cell j, a pad buffer: those of its net and those of its pin.
fn try_pad<'a, 'b>(
    j: usize,
    trial: Trial,
    chip: ChipTables<'a>,
    group: GroupTables<'b>,
    goods: &[u64; WORDS],
    vals: &mut [u64; WORDS],
    known: &mut Progress,
)
    requires j_lt_cells { j < chip.sizes.cells }
    requires tables { Tables chip.sizes.inputs chip.sizes.cells chip.sizes.outputs chip.sizes.pins trial.chunk trial.at chip.kinds.now chip.counts.now chip.firsts.now chip.nets.now chip.order.now chip.branches.now chip.reach.now group.slots.now group.outs.now goods.now }
    requires vals_value { (vals.old ≡ goods.now) × Long known.old.left known.old.best known.old.pat }
    ensures went { Went (CellFault chip.entry.sizes.inputs chip.entry.sizes.cells chip.entry.firsts.now j) (FaultStep chip.entry.sizes.inputs chip.entry.sizes.cells chip.entry.sizes.outputs trial.chunk trial.at chip.entry.kinds.now chip.entry.counts.now chip.entry.firsts.now chip.entry.nets.now chip.entry.order.now chip.entry.reach.now group.entry.slots.now group.entry.outs.now goods.now) known.old.left known.old.best known.old.pat known.new.left known.new.best known.new.pat }
    ensures vals_after { vals.new ≡ goods.now }
{
    let net = chip.sizes.inputs + j;
    let pin = chip.sizes.inputs + chip.sizes.cells + usize::from(chip.firsts[j]);
    for e in 0..4 {
        try_fault(
            homes::number(e, net, pin),
            trial,
            chip,
            group,
            goods,
            vals,
            known,
        );
    }
}

// Tries the faults of all pad buffers, the cells whose net has an input as its source: four of each, those of its net and those of its pin.
// Open: what is known of these faults, but for how one chunk more takes it on: the tables need not be a chip's, and what was known before need not be right.
pub fn try_pads<'a, 'b>(
    trial: Trial,
    chip: ChipTables<'a>,
    group: GroupTables<'b>,
    goods: &[u64; WORDS],
    vals: &mut [u64; WORDS],
    known: &mut Progress,
)
    requires tables_len { length chip.sources.now ≡ 1088 }
    requires tables { Tables chip.sizes.inputs chip.sizes.cells chip.sizes.outputs chip.sizes.pins trial.chunk trial.at chip.kinds.now chip.counts.now chip.firsts.now chip.nets.now chip.order.now chip.branches.now chip.reach.now group.slots.now group.outs.now goods.now }
    requires vals_value { (vals.old ≡ goods.now) × Long known.old.left known.old.best known.old.pat }
    ensures went { Went (PadFault chip.entry.sizes.inputs chip.entry.sizes.cells chip.entry.firsts.now chip.entry.sources.now) (FaultStep chip.entry.sizes.inputs chip.entry.sizes.cells chip.entry.sizes.outputs trial.chunk trial.at chip.entry.kinds.now chip.entry.counts.now chip.entry.firsts.now chip.entry.nets.now chip.entry.order.now chip.entry.reach.now group.entry.slots.now group.entry.outs.now goods.now) known.old.left known.old.best known.old.pat known.new.left known.new.best known.new.pat }
    ensures vals_after { vals.new ≡ goods.now }
{
    let i = chip.sizes.inputs;
    for j in 0..chip.sizes.cells {
        if usize::from(chip.sources[i + j]) < i {
            try_pad(j, trial, chip, group, goods, vals, known);
        }
    }
}
