#![tactic(auto)]
// The faults that are runs of their own, or looked at without one.
// Fault 2 * site + v: the nets of inputs and cells are the first sites, then come the pins, the last ones those of the outputs.
ghost use Rattle.std.specs.Prelude.{◌≡◌, ℕ, ◌+◌, ◌-◌, ◌*◌, ◌≤◌, ◌<◌, length, get_or};
ghost use Rattle.events.specs.Tables.{ChipOn, GoodOn};
ghost use Rattle.cells.specs.Cells.{Clear};
ghost use Rattle.known.specs.Setting.{GoodRun, Long, Went};
ghost use Rattle.stages.specs.Stage.{VariableReaders};
ghost use Rattle.alone.specs.Alone.{Between, OutLooked, OutStep, VarPut, VarsPut, VarMarked, VarsMarked, InputRan, InputTried, InputStep};

use chip::{OUTPUTS, Sizes};
use events::{ChipTables, GroupTables, MARKS, Trial};
use homes::{Progress, Run};
use rows::{ROW, WORDS};

// Looks for fault f, the pin of output z stuck at v.
fn try_out<'a>(
    f: usize,
    z: usize,
    v: u16,
    trial: Trial,
    group: GroupTables<'a>,
    goods: &[u64; WORDS],
    known: &mut Progress,
)
    requires chunk_bound { (trial.chunk < 4096) × (f < 10368) × (z < 64) × (v < 2) × (length group.outs.now ≡ 64) × (length goods.now ≡ 16672) × ((y : ℕ) → y < 64 → 16 * get_or group.outs.now y 0 + 16 ≤ 16672) }
    requires long { Long known.old.left known.old.best known.old.pat }
    ensures { OutLooked f z v trial.chunk trial.at group.entry.outs.now goods.now known.old.left known.old.best known.old.pat known.new.left known.new.best known.new.pat }
{
    let u = known.left[f] & trial.at;
    if u != 0 {
        let mut ends = [0u16; OUTPUTS];
        ends.copy_from_slice(group.outs);
        ends[z] = 1040 + v;
        let run = Run {
            outs: group.outs,
            ends: &ends,
            goods,
            vals: goods,
        };
        known::look_all(f, trial.chunk, u, run, known);
    }
}

// Tries the stuck pins of the outputs that are open at an output that is asked for.
// Open: what is known of these faults, but for how one chunk more takes it on: the tables need not be a chip's, and what was known before need not be right.
pub fn try_outs<'a>(
    trial: Trial,
    sizes: Sizes,
    group: GroupTables<'a>,
    goods: &[u64; WORDS],
    known: &mut Progress,
)
    requires inputs_bound { (sizes.inputs ≤ 64) × (sizes.cells ≤ 1024) × (sizes.pins ≤ 4096) × (sizes.outputs ≤ 64) × (sizes.outputs ≤ sizes.pins) }
    requires chunk_bound { (trial.chunk < 4096) × (length group.outs.now ≡ 64) × (length goods.now ≡ 16672) × ((y : ℕ) → y < 64 → 16 * get_or group.outs.now y 0 + 16 ≤ 16672) }
    requires long { Long known.old.left known.old.best known.old.pat }
    ensures { Went (Between (2 * (sizes.inputs + sizes.cells + sizes.pins - sizes.outputs)) (2 * (sizes.inputs + sizes.cells + sizes.pins))) (OutStep sizes.inputs sizes.cells sizes.outputs sizes.pins trial.chunk trial.at group.entry.outs.now goods.now) known.old.left known.old.best known.old.pat known.new.left known.new.best known.new.pat }
{
    let first = 2 * (sizes.inputs + sizes.cells + sizes.pins - sizes.outputs);
    for e in 0..2 * sizes.outputs {
        try_out(first + e, e / 2, (e % 2) as u16, trial, group, goods, known);
    }
}

// Puts words into variable k, if it is of input x, and marks its readers.
fn set_one<'a, 'b>(
    k: usize,
    x: usize,
    u: u64,
    chip: ChipTables<'a>,
    group: GroupTables<'b>,
    acc: &[u64; ROW],
    vals: &mut [u64; WORDS],
    marks: &mut [u64; MARKS],
)
    requires k_bound { (k < 16) × (length acc.now ≡ 16) × (length vals.old ≡ 16672) × (length marks.old ≡ 16) }
    requires k_in_bounds { (k < length group.variables.now) × (get_or group.variables.now k 0 < length chip.inputs.now) × (get_or group.variables.now k 0 + 1 < length chip.heads.now) × (get_or chip.heads.now (get_or group.variables.now k 0) 0 ≤ get_or chip.heads.now (get_or group.variables.now k 0 + 1) 0) × (get_or chip.heads.now (get_or group.variables.now k 0 + 1) 0 ≤ length chip.readers.now) }
    requires by_index { (r : ℕ) → r < length chip.readers.now → (get_or chip.readers.now r 0 < 1024) × (get_or chip.readers.now r 0 < length chip.reach.now) }
    ensures var_put { VarPut k x group.entry.variables.now chip.entry.inputs.now (λ k j. get_or acc.now j 0) vals.old vals.new }
    ensures var_marked { VarMarked k x u group.entry.variables.now chip.entry.inputs.now chip.entry.heads.now chip.entry.readers.now chip.entry.reach.now marks.old marks.new }
{
    let s = usize::from(group.variables[k]);
    if usize::from(chip.inputs[s]) == x {
        rows::store(acc, k, vals);
        events::mark_readers(s, u, chip, marks);
    }
}

// Puts words into the variables of input x, and marks their readers.
fn set_input<'a, 'b>(
    x: usize,
    u: u64,
    chip: ChipTables<'a>,
    group: GroupTables<'b>,
    acc: &[u64; ROW],
    vals: &mut [u64; WORDS],
    marks: &mut [u64; MARKS],
)
    requires chip { ChipOn chip group.slots.now }
    requires variable_readers { VariableReaders chip.sizes.cells group.width chip.counts.now chip.firsts.now group.slots.now chip.order.now chip.heads.now chip.readers.now group.variables.now chip.inputs.now }
    requires acc_len { (length acc.now ≡ 16) × (length vals.old ≡ 16672) × (length marks.old ≡ 16) }
    ensures vars_put { VarsPut group.entry.width x group.entry.variables.now chip.entry.inputs.now (λ k j. get_or acc.now j 0) vals.old vals.new }
    ensures vars_marked { VarsMarked group.entry.width x u group.entry.variables.now chip.entry.inputs.now chip.entry.heads.now chip.entry.readers.now chip.entry.reach.now marks.old marks.new }
{
    for k in 0..group.width {
        set_one(k, x, u, chip, group, acc, vals, marks);
    }
}

// Runs fault f, a stuck input.
fn run_input<'a, 'b>(
    f: usize,
    trial: Trial,
    chip: ChipTables<'a>,
    group: GroupTables<'b>,
    goods: &[u64; WORDS],
    vals: &mut [u64; WORDS],
    marks: &mut [u64; MARKS],
    changed: &mut [u64; MARKS],
)
    requires chip { ChipOn chip group.slots.now }
    requires variable_readers { VariableReaders chip.sizes.cells group.width chip.counts.now chip.firsts.now group.slots.now chip.order.now chip.heads.now chip.readers.now group.variables.now chip.inputs.now }
    requires goods_len { (length goods.now ≡ 16672) × (vals.old ≡ goods.now) × Clear marks.old × Clear changed.old }
    requires good { GoodOn chip group.slots.now trial.at goods.now }
    ensures input_ran { InputRan chip.entry.sizes.cells group.entry.width f trial.at chip.entry.kinds.now chip.entry.counts.now chip.entry.firsts.now group.entry.slots.now chip.entry.order.now chip.entry.reach.now group.entry.variables.now chip.entry.inputs.now goods.now vals.new changed.new }
    ensures marks_len { length marks.new ≡ 16 }
{
    let mut acc = [0u64; ROW];
    rows::load(goods, 1040 + f % 2, &mut acc);
    set_input(f / 2, trial.at, chip, group, &acc, vals, marks);
    events::run(0, trial.at, chip, group.slots, vals, marks, changed);
}

// Puts the good words back into variable k, if it is of input x.
fn free_one<'a, 'b>(
    k: usize,
    x: usize,
    chip: ChipTables<'a>,
    group: GroupTables<'b>,
    goods: &[u64; WORDS],
    vals: &mut [u64; WORDS],
)
    requires k_bound { (k < 16) × (length goods.now ≡ 16672) × (length vals.old ≡ 16672) }
    requires k_in_bounds { (k < length group.variables.now) × (get_or group.variables.now k 0 < length chip.inputs.now) }
    ensures { VarPut k x group.entry.variables.now chip.entry.inputs.now (λ k j. get_or goods.now (16 * k + j) 0) vals.old vals.new }
{
    if usize::from(chip.inputs[usize::from(group.variables[k])]) == x {
        events::restore_slot(goods, k, vals);
    }
}

// Puts the good words back into the variables of input x.
fn free_input<'a, 'b>(
    x: usize,
    chip: ChipTables<'a>,
    group: GroupTables<'b>,
    goods: &[u64; WORDS],
    vals: &mut [u64; WORDS],
)
    requires w_bound { (group.width ≤ 16) × (length goods.now ≡ 16672) × (length vals.old ≡ 16672) }
    requires w_in_bounds { (group.width ≤ length group.variables.now) × ((k : ℕ) → k < group.width → get_or group.variables.now k 0 < length chip.inputs.now) }
    ensures { VarsPut group.entry.width x group.entry.variables.now chip.entry.inputs.now (λ k j. get_or goods.now (16 * k + j) 0) vals.old vals.new }
{
    for k in 0..group.width {
        free_one(k, x, chip, group, goods, vals);
    }
}

// Runs fault f, a stuck input, looks for it, and puts the good words back.
fn look_input<'a, 'b>(
    f: usize,
    trial: Trial,
    chip: ChipTables<'a>,
    group: GroupTables<'b>,
    goods: &[u64; WORDS],
    vals: &mut [u64; WORDS],
    known: &mut Progress,
)
    requires chip { ChipOn chip group.slots.now }
    requires variable_readers { VariableReaders chip.sizes.cells group.width chip.counts.now chip.firsts.now group.slots.now chip.order.now chip.heads.now chip.readers.now group.variables.now chip.inputs.now }
    requires goods_len { (length goods.now ≡ 16672) × (vals.old ≡ goods.now) }
    requires good { GoodOn chip group.slots.now trial.at goods.now }
    requires chunk_bound { (trial.chunk < 4096) × (f < 10368) × (length group.outs.now ≡ 64) × ((z : ℕ) → z < 64 → 16 * get_or group.outs.now z 0 + 16 ≤ 16672) }
    requires long { Long known.old.left known.old.best known.old.pat }
    ensures input_tried { InputTried f chip.entry.sizes.cells group.entry.width trial.chunk trial.at chip.entry.kinds.now chip.entry.counts.now chip.entry.firsts.now group.entry.slots.now chip.entry.order.now chip.entry.reach.now group.entry.outs.now group.entry.variables.now chip.entry.inputs.now goods.now known.old.left known.old.best known.old.pat known.new.left known.new.best known.new.pat }
    ensures vals_after { vals.new ≡ goods.now }
{
    let mut marks = [0u64; MARKS];
    let mut changed = [0u64; MARKS];
    run_input(f, trial, chip, group, goods, vals, &mut marks, &mut changed);
    let run = Run {
        outs: group.outs,
        ends: group.outs,
        goods,
        vals,
    };
    known::look_all(f, trial.chunk, trial.at, run, known);
    free_input(f / 2, chip, group, goods, vals);
    events::restore(0, chip.sizes.cells, chip.order, goods, &changed, vals);
}

// Tries fault f, a stuck input, at the outputs that are left to it.
fn try_input<'a, 'b>(
    f: usize,
    trial: Trial,
    chip: ChipTables<'a>,
    group: GroupTables<'b>,
    goods: &[u64; WORDS],
    vals: &mut [u64; WORDS],
    known: &mut Progress,
)
    requires chip { ChipOn chip group.slots.now }
    requires variable_readers { VariableReaders chip.sizes.cells group.width chip.counts.now chip.firsts.now group.slots.now chip.order.now chip.heads.now chip.readers.now group.variables.now chip.inputs.now }
    requires inputs_bound { (chip.sizes.inputs ≤ 64) × (f < 2 * chip.sizes.inputs) × (vals.old ≡ goods.now) }
    requires good_run { GoodRun chip.sizes.cells trial.chunk trial.at chip.kinds.now chip.counts.now chip.firsts.now group.slots.now chip.order.now chip.reach.now group.outs.now goods.now }
    requires long { Long known.old.left known.old.best known.old.pat }
    ensures went { Went (λ x. x ≡ f) (InputStep chip.entry.sizes.inputs chip.entry.sizes.cells group.entry.width trial.chunk trial.at chip.entry.kinds.now chip.entry.counts.now chip.entry.firsts.now group.entry.slots.now chip.entry.order.now chip.entry.reach.now group.entry.outs.now group.entry.variables.now chip.entry.inputs.now goods.now) known.old.left known.old.best known.old.pat known.new.left known.new.best known.new.pat }
    ensures vals_after { vals.new ≡ goods.now }
{
    let u = known.left[f] & trial.at;
    if u != 0 {
        let narrowed = Trial { at: u, ..trial };
        look_input(f, narrowed, chip, group, goods, vals, known);
    }
}

// Tries the stuck inputs that are open at an output that is asked for.
// Open: what is known of these faults, but for how one chunk more takes it on: the tables need not be a chip's, and what was known before need not be right.
pub fn try_inputs<'a, 'b>(
    trial: Trial,
    chip: ChipTables<'a>,
    group: GroupTables<'b>,
    goods: &[u64; WORDS],
    vals: &mut [u64; WORDS],
    known: &mut Progress,
)
    requires chip { ChipOn chip group.slots.now }
    requires variable_readers { VariableReaders chip.sizes.cells group.width chip.counts.now chip.firsts.now group.slots.now chip.order.now chip.heads.now chip.readers.now group.variables.now chip.inputs.now }
    requires inputs_bound { (chip.sizes.inputs ≤ 64) × (vals.old ≡ goods.now) }
    requires good_run { GoodRun chip.sizes.cells trial.chunk trial.at chip.kinds.now chip.counts.now chip.firsts.now group.slots.now chip.order.now chip.reach.now group.outs.now goods.now }
    requires long { Long known.old.left known.old.best known.old.pat }
    ensures went { Went (λ f. f < 2 * chip.entry.sizes.inputs) (InputStep chip.entry.sizes.inputs chip.entry.sizes.cells group.entry.width trial.chunk trial.at chip.entry.kinds.now chip.entry.counts.now chip.entry.firsts.now group.entry.slots.now chip.entry.order.now chip.entry.reach.now group.entry.outs.now group.entry.variables.now chip.entry.inputs.now goods.now) known.old.left known.old.best known.old.pat known.new.left known.new.best known.new.pat }
    ensures vals_after { vals.new ≡ goods.now }
{
    for f in 0..2 * chip.sizes.inputs {
        try_input(f, trial, chip, group, goods, vals, known);
    }
}
