#![tactic(auto)]
// The faults at one cell, its home: fault e < 2 is the cell's net stuck at e, fault 2 + 2 * i + v its pin i stuck at v.
// Slot 1040 holds zeros and slot 1041 ones.
ghost use Rattle.std.specs.Prelude.{◌≡◌, MatchOption, false, ℕ, ◌+◌, ◌-◌, ◌*◌, ◌/◌, ◌^◌, ◌≤◌, ◌<◌, length, get_or, set};
ghost use Rattle.std.specs.Iterator.{at_most};
ghost use Rattle.std.specs.Int.Bits.{bit_and, bit_xor};
ghost use Rattle.rows.specs.Rows.{Filled};
ghost use Rattle.homes.specs.Homes.{pin_word, home_word, number_of, Home, lane_at, IsFirstLane, TakesOut, SeenAt, Looked, LookedHome, HomeLanes};

use chip::FAULTS;
use rows::ROW;
use words::{Or, Xor};

// A cell whose faults are tried: its place in the order, its number, its kind, the sites of its net and of its first pin, that pin, and how many it has.
#[derive(Drop)]
pub struct Cell {
    pub place: usize,
    pub number: usize,
    pub kind: u8,
    pub net: usize,
    pub pin: usize,
    pub first: usize,
    pub count: usize,
}

// What is known of the faults: the outputs at which each is still looked for, the lowest output at which a pattern was found for it, or 64, and that pattern.
#[derive(Drop)]
pub struct Progress {
    pub left: [u64; FAULTS],
    pub best: [u8; FAULTS],
    pub pat: [u32; FAULTS],
}

// A run beside the good one: the good words of output z stand in slot outs[z] of goods, those of the run in slot ends[z] of vals.
#[derive(Clone, Copy)]
pub struct Run<'a> {
    pub outs: &'a [u16],
    pub ends: &'a [u16],
    pub goods: &'a [u64],
    pub vals: &'a [u64],
}

// Copies n slots from pin a on.
pub fn copy_pins(a: usize, n: usize, src: &[u16], pins: &mut [u16])
    requires { (a + n ≤ length src.now) × (n ≤ length pins.old) }
    ensures { Filled 0 n (λ i. get_or src.now (a + i) 0) pins.old pins.new }
{
    pins[..n].copy_from_slice(&src[a..a + n]);
}

// The words that the home shows whose pin q looks at another slot.
fn pin_row(home: &Cell, q: usize, slot: u16, src: &[u16], vals: &[u64], out: &mut [u64])
    requires { (q < home.now.count) × (16 * slot + 16 ≤ length vals.now) × (length out.old ≡ 16) × Home home.now.kind src.now (length vals.now) home.now.first home.now.count }
    ensures { Filled 0 16 (pin_word home.now.kind src.now home.now.first home.now.count q slot vals.now) out.old out.new }
{
    let mut pins = [0u16; 8];
    copy_pins(home.first, home.count, src, &mut pins);
    pins[q] = slot;
    rows::gate(home.kind, &pins, 0, home.count, vals, out);
}

// The words that the home shows under fault e.
fn home_row(e: usize, home: &Cell, src: &[u16], vals: &[u64], out: &mut [u64])
    requires { (e < 2 * home.now.count + 2) × (length out.old ≡ 16) × Home home.now.kind src.now (length vals.now) home.now.first home.now.count }
    ensures { Filled 0 16 (home_word e home.now.kind src.now home.now.first home.now.count vals.now) out.old out.new }
{
    if e < 2 {
        rows::load(vals, 1040 + e, out);
        return;
    }
    pin_row(home, e / 2 - 1, 1040 + ((e % 2) as u16), src, vals, out);
}

// The words in which the home, whose own stand in slot h, differs under fault e.
fn home_diff(e: usize, home: &Cell, h: usize, src: &[u16], goods: &[u64], out: &mut [u64])
    requires { (e < 2 * home.now.count + 2) × (16 * h + 16 ≤ length goods.now) × (length out.old ≡ 16) × Home home.now.kind src.now (length goods.now) home.now.first home.now.count }
    ensures { Filled 0 16 (λ k. bit_xor (home_word e home.now.kind src.now home.now.first home.now.count goods.now k) (get_or goods.now (16 * h + k) 0)) out.old out.new }
{
    home_row(e, home, src, goods, out);
    rows::join::<Xor>(rows::slot(goods, h), out);
}

// The number of fault e.
pub fn number(e: usize, net: usize, pin: usize) -> usize
    requires { (e < 18) × (net < 10000) × (pin < 10000) }
    ensures { result ≡ number_of e net pin }
{
    if e < 2 {
        return 2 * net + e;
    }
    2 * pin + (e - 2)
}

// The first lane of t in which the words at slot e differ from the good ones at slot s.
fn common(t: &[u64], s: usize, e: usize, goods: &[u64], vals: &[u64]) -> Option<usize>
    requires { (length t.now ≡ 16) × (16 * s + 16 ≤ length goods.now) × (16 * e + 16 ≤ length vals.now) }
    ensures { MatchOption result ((i : ℕ) → i < 1024 → lane_at t.now s e goods.now vals.now i ≡ false) (λ l. IsFirstLane (lane_at t.now s e goods.now vals.now) l) }
{
    for k in 0..ROW {
        let x = t[k] & (goods[ROW * s + k] ^ vals[ROW * e + k]);
        if x != 0 {
            return Some(64 * k + words::lowest_bit(x));
        }
    }
    None
}

// The outputs of a word that are still to come, lowest first.
#[derive(Drop)]
struct Outputs {
    rest: u64,
}

impl Iterator for Outputs {
    type Item = usize;

    ghost next_gives = { λ s r t. TakesOut s.rest r t.rest };

    ghost remaining = { λ s. at_most s.rest };

    fn next(&mut self) -> Option<usize> {
        if self.rest == 0 {
            return None;
        }
        let z = words::lowest_bit(self.rest);
        self.rest &= !words::one_bit(z);
        Some(z)
    }
}

// The outputs of u, lowest first.
fn each_output(u: u64) -> Outputs
    ensures { result.rest ≡ u }
{
    Outputs { rest: u }
}

// Outputs of u at which something differs.
// Open: further outputs of those asked for: it only saves work.
pub fn seen_at(u: u64, outs: &[u16], goods: &[u64], vals: &[u64]) -> u64
    requires { (length outs.now ≡ 64) × ((z : ℕ) → z < 64 → (16 * get_or outs.now z 0 + 16 ≤ length goods.now) × (16 * get_or outs.now z 0 + 16 ≤ length vals.now)) }
    ensures { SeenAt u outs.now goods.now vals.now result }
{
    let mut seen = 0;
    for z in each_output(u) {
        let s = usize::from(outs[z]);
        if rows::differs(rows::slot(goods, s), vals, s) {
            seen |= words::one_bit(z);
        }
    }
    seen
}

// Enters a hit of fault f.
fn enter(f: usize, z: usize, m: usize, known: &mut Progress)
    requires { (z < 64) × (m < 4294967296) × (f < 10368) }
    ensures left_after { known.new.left ≡ set known.old.left f (bit_and (get_or known.old.left f 0) (2 ^ z - 1)) }
    ensures best_after { known.new.best ≡ set known.old.best f z }
    ensures pat_after { known.new.pat ≡ set known.old.pat f m }
{
    known.best[f] = z as u8;
    known.pat[f] = m as u32;
    known.left[f] &= words::one_bit(z) - 1;
}

// Looks for fault f, whose lanes are t, at the outputs of u in a run, lowest first.
pub fn look<'a>(f: usize, q: usize, u: u64, t: &[u64], run: Run<'a>, known: &mut Progress)
    requires t_len { (length t.now ≡ 16) × (length run.outs.now ≡ 64) × (q < 4096) × ((z : ℕ) → z < 64 → (16 * get_or run.outs.now z 0 + 16 ≤ length run.goods.now) × (16 * get_or run.ends.now z 0 + 16 ≤ length run.vals.now)) × (length run.ends.now ≡ 64) }
    requires f_bound { f < 10368 }
    ensures { Looked f q u (λ z. lane_at t.now (get_or run.entry.outs.now z 0) (get_or run.entry.ends.now z 0) run.entry.goods.now run.entry.vals.now) known.old.left known.old.best known.old.pat known.new.left known.new.best known.new.pat }
{
    let Run {
        outs,
        ends,
        goods,
        vals,
    } = run;
    for z in each_output(u) {
        if let Some(l) = common(t, usize::from(outs[z]), usize::from(ends[z]), goods, vals) {
            enter(f, z, 64 * q + l, known);
            return;
        }
    }
}

// Looks for the open faults of the home.
pub fn look_home(
    home: &Cell,
    q: usize,
    u: u64,
    src: &[u16],
    outs: &[u16],
    goods: &[u64],
    vals: &[u64],
    known: &mut Progress,
)
    requires q_bound { (q < 4096) × (length outs.now ≡ 64) × ((z : ℕ) → z < 64 → (16 * get_or outs.now z 0 + 16 ≤ length goods.now) × (16 * get_or outs.now z 0 + 16 ≤ length vals.now)) }
    requires net_lt_pin { (home.now.net < home.now.pin) × (home.now.pin + home.now.count ≤ 5184) × (home.now.number < 1024) × (16 * (16 + home.now.number) + 16 ≤ length goods.now) × Home home.now.kind src.now (length goods.now) home.now.first home.now.count }
    ensures { LookedHome (2 * home.now.count + 2) home.now.kind home.now.net home.now.pin (16 + home.now.number) home.now.first home.now.count q u src.now outs.now goods.now vals.now known.old.left known.old.best known.old.pat known.new.left known.new.best known.new.pat }
{
    let run = Run {
        outs,
        ends: outs,
        goods,
        vals,
    };
    for e in 0..2 * home.count + 2 {
        let f = number(e, home.net, home.pin);
        let open = known.left[f] & u;
        if open != 0 {
            let mut t = [0u64; ROW];
            home_diff(e, home, 16 + home.number, src, goods, &mut t);
            look(f, q, open, &t, run, known);
        }
    }
}

// Turns the lanes of acc in slot s.
pub fn flip(acc: &[u64], s: usize, vals: &mut [u64])
    requires { (16 * s + 16 ≤ length vals.old) × (length acc.now ≡ 16) }
    ensures { Filled (16 * s) 16 (λ k. bit_xor (get_or vals.old (16 * s + k) 0) (get_or acc.now k 0)) vals.old vals.new }
{
    rows::join::<Xor>(acc, &mut vals[ROW * s..ROW * s + ROW]);
}

// Whether a bit is set.
// Open: true where all lanes are 0: it only saves work.
pub fn any(acc: &[u64]) -> bool
    requires { length acc.now ≡ 16 }
    ensures { result ≡ false → (k : ℕ) → k < 16 → get_or acc.now k 0 ≡ 0 }
{
    acc.iter().any(|&w| w != 0)
}

// Joins to acc the lanes in which an open fault of the home, whose words stand in slot h, differs there.
fn each_lane(
    home: &Cell,
    h: usize,
    u: u64,
    src: &[u16],
    left: &[u64],
    goods: &[u64],
    acc: &mut [u64],
)
    requires net_lt_pin { (home.now.net < home.now.pin) × (home.now.pin + home.now.count ≤ 5184) × (16 * h + 16 ≤ length goods.now) × Home home.now.kind src.now (length goods.now) home.now.first home.now.count }
    requires left_len { (length left.now ≡ 10368) × (length acc.old ≡ 16) }
    ensures { HomeLanes (2 * home.now.count + 2) home.now.kind home.now.net home.now.pin h home.now.first home.now.count u src.now left.now goods.now acc.new }
{
    for e in 0..2 * home.count + 2 {
        if left[number(e, home.net, home.pin)] & u != 0 {
            let mut t = [0u64; ROW];
            home_diff(e, home, h, src, goods, &mut t);
            rows::join::<Or>(&t, acc);
        }
    }
}

// Lanes that hold those in which an open fault of the home, whose words stand in slot h, differs there: all, if both faults of its net are open.
// Open: further lanes: lanes too many cost work and no answer.
pub fn home_lanes(
    home: &Cell,
    h: usize,
    u: u64,
    src: &[u16],
    left: &[u64],
    goods: &[u64],
    acc: &mut [u64],
)
    requires net_lt_pin { (home.now.net < home.now.pin) × (home.now.pin + home.now.count ≤ 5184) × (16 * h + 16 ≤ length goods.now) × Home home.now.kind src.now (length goods.now) home.now.first home.now.count }
    requires left_len { (length left.now ≡ 10368) × (length acc.old ≡ 16) }
    ensures { HomeLanes (2 * home.now.count + 2) home.now.kind home.now.net home.now.pin h home.now.first home.now.count u src.now left.now goods.now acc.new }
{
    if left[2 * home.net] & u != 0 && left[2 * home.net + 1] & u != 0 {
        acc.fill(u64::MAX);
        return;
    }
    each_lane(home, h, u, src, left, goods, acc);
}
