#![tactic(auto)]
// The words of the 16 chunks from chunk q on: those of the variables, the constants, and the good words of the cells.
ghost use Rattle.std.specs.Prelude.{◌≡◌, List, ℕ, ◌+◌, ◌-◌, ◌*◌, ◌^◌, ◌≤◌, ◌<◌, length, get_or};
ghost use Rattle.rows.specs.Rows.{Filled};
ghost use Rattle.events.specs.Events.{Chip};
ghost use Rattle.patterns.specs.Variables.{Variable, Variables};
ghost use Rattle.patterns.specs.Words.{Store, GoodWords};

use events::{ChipTables, GroupTables, Trial};
use rows::WORDS;

// Variable i.
fn set_variable(i: usize, q: usize, goods: &mut [u64; WORDS])
    requires { (i < 16) × (q < 4096) × (length goods.old ≡ 16672) }
    ensures { Variable i q 16 goods.old goods.new }
{
    for k in 0..16 {
        goods[16 * i + k] = words::pattern_word(i, (q + k) as u64);
    }
}

// The first w variables.
fn set_variables(w: usize, q: usize, goods: &mut [u64; WORDS])
    requires { (w ≤ 16) × (q < 4096) × (length goods.old ≡ 16672) }
    ensures { Variables w q goods.old goods.new }
{
    for i in 0..w {
        set_variable(i, q, goods);
    }
}

// The ones stand in their slot.
pub fn put_ones(words: &mut [u64; WORDS])
    requires { length words.old ≡ 16672 }
    ensures { Filled 16656 16 (λ k. 2 ^ 64 - 1) words.old words.new }
{
    words[16656..].fill(0xffff_ffff_ffff_ffff);
}

// The good words, in both tables.
// Open: words of variables past the width, of slots past the cells, and of places that reach no output that is asked for: scratch of the chunk before.
pub fn good_words<'a, 'b>(
    trial: Trial,
    chip: ChipTables<'a>,
    group: GroupTables<'b>,
    goods: &mut [u64; WORDS],
    vals: &mut [u64; WORDS],
)
    requires by_index { (heads readers : List ℕ) × Chip chip.sizes.cells chip.kinds.now chip.counts.now chip.firsts.now group.slots.now chip.order.now chip.reach.now heads readers }
    requires width_bound { (group.width ≤ 16) × (trial.chunk < 4096) × (chip.sizes.cells ≤ 1024) × ((t : ℕ) → t < chip.sizes.cells → get_or chip.order.now t 0 < chip.sizes.cells) × Store chip.sizes.cells goods.old vals.old }
    ensures { GoodWords chip.entry.sizes.cells group.entry.width trial.chunk trial.at chip.entry.kinds.now chip.entry.counts.now chip.entry.firsts.now group.entry.slots.now chip.entry.order.now chip.entry.reach.now goods.new vals.new }
{
    set_variables(group.width, trial.chunk, goods);
    events::good_cells(trial.at, chip, group.slots, goods);
    events::copy_words(16 * (16 + chip.sizes.cells), goods, vals);
}
