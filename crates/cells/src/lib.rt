#![tactic(auto)]
// The faults at one home tried in one chunk: the home flipped, the change carried on, the outputs looked at, and all put back.
ghost use Rattle.std.specs.Prelude.{◌≡◌, ℕ, ◌+◌, ◌*◌, ◌≤◌, ◌<◌, length, get_or};
ghost use Rattle.events.specs.Tables.{ChipOn, GoodOn};
ghost use Rattle.homes.specs.Homes.{Home, LookedHome, HomeLanes};
ghost use Rattle.cells.specs.Cells.{Clear, FlipRan, HomeTried};

use events::{ChipTables, GroupTables, MARKS, Trial};
use homes::{Cell, Progress};
use rows::{ROW, WORDS};

// Flips the home at place p in the lanes of acc, and carries the change on.
fn flip_run<'a>(
    p: usize,
    u: u64,
    chip: ChipTables<'a>,
    src: &[u16],
    acc: &[u64; ROW],
    vals: &mut [u64; WORDS],
    marks: &mut [u64; MARKS],
    changed: &mut [u64; MARKS],
)
    requires chip { ChipOn chip src.now }
    requires p_lt_c { (p < chip.sizes.cells) × (length acc.now ≡ 16) × (length vals.old ≡ 16672) × Clear marks.old × Clear changed.old }
    requires good { GoodOn chip src.now u vals.old }
    ensures flip_ran { FlipRan chip.entry.sizes.cells u p chip.entry.kinds.now chip.entry.counts.now chip.entry.firsts.now src.now chip.entry.order.now chip.entry.reach.now vals.old vals.new changed.new (λ k. get_or acc.now k 0) }
    ensures marks_len { length marks.new ≡ 16 }
{
    let j = usize::from(chip.order[p]);
    homes::flip(acc, 16 + j, vals);
    events::put_bit(p, changed);
    events::mark_readers(4160 + j, u, chip, marks);
    events::run(p + 1, u, chip, src, vals, marks, changed);
}

// Looks for the open faults of the home at the outputs of u.
fn look_seen<'a>(
    home: &Cell,
    q: usize,
    u: u64,
    group: GroupTables<'a>,
    goods: &[u64; WORDS],
    vals: &[u64; WORDS],
    known: &mut Progress,
)
    requires q_bound { (q < 4096) × (length group.outs.now ≡ 64) × ((z : ℕ) → z < 64 → (16 * get_or group.outs.now z 0 + 16 ≤ length goods.now) × (16 * get_or group.outs.now z 0 + 16 ≤ length vals.now)) }
    requires net_lt_pin { (home.now.net < home.now.pin) × (home.now.pin + home.now.count ≤ 5184) × (home.now.number < 1024) × (16 * (16 + home.now.number) + 16 ≤ length goods.now) × Home home.now.kind group.slots.now (length goods.now) home.now.first home.now.count }
    ensures { LookedHome (2 * home.now.count + 2) home.now.kind home.now.net home.now.pin (16 + home.now.number) home.now.first home.now.count q u group.entry.slots.now group.entry.outs.now goods.now vals.now known.old.left known.old.best known.old.pat known.new.left known.new.best known.new.pat }
{
    let seen = homes::seen_at(u, group.outs, goods, vals);
    homes::look_home(home, q, seen, group.slots, group.outs, goods, vals, known);
}

// Flips the home in the lanes of acc, looks for its open faults, and puts the good words back.
fn flip_look<'a, 'b>(
    home: &Cell,
    trial: Trial,
    chip: ChipTables<'a>,
    group: GroupTables<'b>,
    goods: &[u64; WORDS],
    acc: &[u64; ROW],
    vals: &mut [u64; WORDS],
    known: &mut Progress,
)
    requires chip { ChipOn chip group.slots.now }
    requires place_lt_cells { (home.now.place < chip.sizes.cells) × (home.now.number ≡ get_or chip.order.now home.now.place 0) × (length acc.now ≡ 16) × (length goods.now ≡ 16672) × (vals.old ≡ goods.now) }
    requires good { GoodOn chip group.slots.now trial.at goods.now }
    requires chunk_bound { (trial.chunk < 4096) × (length group.outs.now ≡ 64) × ((z : ℕ) → z < 64 → 16 * get_or group.outs.now z 0 + 16 ≤ 16672) }
    requires net_lt_pin { (home.now.net < home.now.pin) × (home.now.pin + home.now.count ≤ 5184) × Home home.now.kind group.slots.now 16672 home.now.first home.now.count }
    requires home_lanes { HomeLanes (2 * home.now.count + 2) home.now.kind home.now.net home.now.pin (16 + home.now.number) home.now.first home.now.count trial.at group.slots.now known.old.left goods.now acc.now }
    ensures home_tried { HomeTried chip.entry.sizes.cells trial.at home.now.place trial.chunk home.now.kind home.now.net home.now.pin home.now.number home.now.first home.now.count chip.entry.kinds.now chip.entry.counts.now chip.entry.firsts.now group.entry.slots.now chip.entry.order.now chip.entry.reach.now group.entry.outs.now goods.now known.old.left known.old.best known.old.pat known.new.left known.new.best known.new.pat }
    ensures vals_after { vals.new ≡ goods.now }
{
    let mut marks = [0u64; MARKS];
    let mut changed = [0u64; MARKS];
    flip_run(
        home.place,
        trial.at,
        chip,
        group.slots,
        acc,
        vals,
        &mut marks,
        &mut changed,
    );
    look_seen(home, trial.chunk, trial.at, group, goods, vals, known);
    events::restore(0, chip.sizes.cells, chip.order, goods, &changed, vals);
}

// Tries the open faults of the home in one chunk.
// Open: what is known of the faults where the reached outputs are those of no chip: that they are a chip's is the caller's to know.
pub fn try_home<'a, 'b>(
    home: &Cell,
    trial: Trial,
    chip: ChipTables<'a>,
    group: GroupTables<'b>,
    goods: &[u64; WORDS],
    vals: &mut [u64; WORDS],
    known: &mut Progress,
)
    requires chip { ChipOn chip group.slots.now }
    requires place_lt_cells { (home.now.place < chip.sizes.cells) × (home.now.number ≡ get_or chip.order.now home.now.place 0) × (length goods.now ≡ 16672) × (vals.old ≡ goods.now) }
    requires good { GoodOn chip group.slots.now trial.at goods.now }
    requires chunk_bound { (trial.chunk < 4096) × (length group.outs.now ≡ 64) × ((z : ℕ) → z < 64 → 16 * get_or group.outs.now z 0 + 16 ≤ 16672) }
    requires net_lt_pin { (home.now.net < home.now.pin) × (home.now.pin + home.now.count ≤ 5184) × Home home.now.kind group.slots.now 16672 home.now.first home.now.count }
    ensures home_tried { HomeTried chip.entry.sizes.cells trial.at home.now.place trial.chunk home.now.kind home.now.net home.now.pin home.now.number home.now.first home.now.count chip.entry.kinds.now chip.entry.counts.now chip.entry.firsts.now group.entry.slots.now chip.entry.order.now chip.entry.reach.now group.entry.outs.now goods.now known.old.left known.old.best known.old.pat known.new.left known.new.best known.new.pat }
    ensures vals_after { vals.new ≡ goods.now }
{
    let mut acc = [0u64; ROW];
    homes::home_lanes(
        home,
        16 + home.number,
        trial.at,
        group.slots,
        &known.left,
        goods,
        &mut acc,
    );
    if homes::any(&acc) {
        flip_look(home, trial, chip, group, goods, &acc, vals, known);
    }
}
