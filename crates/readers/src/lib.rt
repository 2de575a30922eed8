#![tactic(auto)]
// The tables of a chip that the events run on: the outputs that each place reaches, and the places that read each block and each cell.
// Head s stands for the readers of block s, or those of cell s - 4160: entries heads[s] up to heads[s + 1] of the readers, which are places.
ghost use Rattle.std.specs.Prelude.{◌≡◌, ℕ, List, ◌+◌, ◌≤◌, ◌<◌, length, get_or};
ghost use Rattle.rows.specs.Rows.{Filled};
ghost use Rattle.readers.specs.Readers.{pin_key, PinHeads, Wires, Owned, Reached, Counted, Put, Read, Built};

use chip::PINS;

// The pins of a chip with so many inputs: the input that each is a branch of, the net that it names, and its block.
#[derive(Clone, Copy)]
struct Pins<'a> {
    inputs: usize,
    branches: &'a [u16],
    nets: &'a [u16],
    block: &'a [u16],
}

impl Pins<'_> {
    // The head of pin p: its block if it is a branch, else 4160 and the number of the cell that it names.
    fn head(&self, p: usize) -> usize
        requires { (n : ℕ) × (p < n) × PinHeads self.now n }
        ensures { (result ≡ pin_key self.now p) × (result < 5184) }
    {
        if usize::from(self.branches[p]) < self.inputs {
            return usize::from(self.block[p]);
        }
        4160 + usize::from(self.nets[p]).saturating_sub(self.inputs)
    }
}

// Gives the n pins from pin a on to place p.
fn own(a: usize, n: usize, p: u16, owner: &mut [u16])
    requires { (a + n ≤ length owner.old) × (length owner.old ≡ 4096) }
    ensures { Filled a n (λ x. p) owner.old owner.new }
{
    owner[a..a + n].fill(p);
}

// The place of each cell's pins.
fn owners(c: usize, counts: &[u8], firsts: &[u16], order: &[u16], owner: &mut [u16])
    requires wires { (i n : ℕ) × (branches nets block : List ℕ) × Wires i c n counts.now firsts.now branches nets order.now block }
    requires owner_len { (length owner.old ≡ 4096) × ((x : ℕ) → get_or owner.old x 0 ≡ 0) }
    ensures { Owned c c counts.now firsts.now order.now owner.new }
{
    for (t, &j) in order[..c].iter().enumerate() {
        let j = usize::from(j);
        let first = usize::from(firsts[j]);
        own(first, usize::from(counts[j]), t as u16, owner);
    }
}

// The outputs that each place reaches: those of its first pin.
// Open: entries past the places: a table of 1,024 of which the places are in use.
pub fn reaches(c: usize, firsts: &[u16], order: &[u16], cone: &[u64], reach: &mut [u64])
    requires c_bound { (c ≤ 1024) × (c ≤ length order.now) × (c ≤ length reach.old) }
    requires by_index { (t : ℕ) → t < c → (get_or order.now t 0 < length firsts.now) × (get_or firsts.now (get_or order.now t 0) 0 < length cone.now) }
    ensures { Reached c firsts.now order.now cone.now reach.old reach.new }
{
    for (t, &j) in order[..c].iter().enumerate() {
        reach[t] = cone[usize::from(firsts[usize::from(j)])];
    }
}

// How many of the first n pins have each head.
fn count_readers(pins: &Pins, n: usize, heads: &mut [u16])
    requires heads { PinHeads pins.now n }
    requires heads_len { (length heads.old ≡ 5185) × ((x : ℕ) → get_or heads.old x 0 ≡ 0) }
    ensures { Counted n (pin_key pins.now) heads.new }
{
    for p in 0..n {
        heads[pins.head(p)] += 1;
    }
}

// Where the readers of each head end.
fn sum_readers(heads: &mut [u16])
    requires { (n : ℕ) × (key : ℕ → ℕ) × (n ≤ 4096) × Counted n key heads.old }
    ensures { (n : ℕ) (key : ℕ → ℕ) → Counted n key heads.old → Put n n key heads.new }
{
    let mut end = 0;
    for head in heads.iter_mut() {
        end += *head;
        *head = end;
    }
}

// Gives each pin its entry among the readers, the last pin first: it stands before those of the same head that have theirs.
fn put_readers(
    pins: &Pins,
    c: usize,
    n: usize,
    owner: &[u16],
    heads: &mut [u16],
    readers: &mut [u16],
)
    requires heads { PinHeads pins.now n }
    requires owner_len { (length owner.now ≡ 4096) × ((p : ℕ) → p < n → 0 < c → get_or owner.now p 0 < c) }
    requires put { Put n n (pin_key pins.now) heads.old }
    requires read { Read n n c (pin_key pins.now) owner.now readers.old }
    ensures put_2 { Put 0 n (pin_key pins.now) heads.new }
    ensures read_2 { Read 0 n c (pin_key pins.now) owner.now readers.new }
{
    for p in (0..n).rev() {
        let s = pins.head(p);
        let r = heads[s] - 1;
        heads[s] = r;
        readers[usize::from(r)] = owner[p];
    }
}

// The readers of each block and each cell of a chip with n pins of cells.
// Open: the order of the readers of a place, and entries of pins that no cell has: each reader is found, in whatever order.
pub fn build(
    i: usize,
    c: usize,
    n: usize,
    counts: &[u8],
    firsts: &[u16],
    branches: &[u16],
    nets: &[u16],
    order: &[u16],
    block: &[u16],
    heads: &mut [u16],
    readers: &mut [u16],
)
    requires wires { Wires i c n counts.now firsts.now branches.now nets.now order.now block.now }
    requires heads_len { (length heads.old ≡ 5185) × ((x : ℕ) → get_or heads.old x 0 ≡ 0) }
    requires readers_len { (length readers.old ≡ n) × ((x : ℕ) → get_or readers.old x 0 ≡ 0) }
    ensures { Built i c n counts.now firsts.now branches.now nets.now order.now block.now heads.new readers.new }
{
    let pins = Pins {
        inputs: i,
        branches,
        nets,
        block,
    };
    let mut owner = [0u16; PINS];
    owners(c, counts, firsts, order, &mut owner);
    count_readers(&pins, n, heads);
    sum_readers(heads);
    put_readers(&pins, c, n, &owner, heads, readers);
}
