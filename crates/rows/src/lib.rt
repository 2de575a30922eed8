#![tactic(auto)]
// A slot holds 16 words of 64 patterns: word k of slot s stands at 16 * s + k of a table.
ghost use Rattle.std.specs.Prelude.{◌≡◌, true, false, ℕ, ◌+◌, ◌-◌, ◌*◌, ◌^◌, ◌≤◌, ◌<◌, length, get_or};
ghost use Rattle.std.specs.Int.Bits.{bit_xor};
ghost use Rattle.chip.specs.Netlist.{takes};
ghost use Rattle.words.specs.Lanes.{gate_word, joined};
ghost use Rattle.rows.specs.Rows.{Filled, on_row, Pins};

use words::{And, Join, Or, Xor};

// A slot has 16 words, and a table of words has 1,042 slots.
pub const ROW: usize = 16;

pub const WORDS: usize = 16672;

// The words of slot s.
pub fn slot(vals: &[u64], s: usize) -> &[u64]
    requires { 16 * s + 16 ≤ length vals.now }
    ensures len { length result.now ≡ 16 }
    ensures words { (k : ℕ) → k < 16 → get_or result.now k 0 ≡ get_or vals.now (16 * s + k) 0 }
{
    &vals[ROW * s..ROW * s + ROW]
}

// Copies the words of slot s.
pub fn load(vals: &[u64], s: usize, acc: &mut [u64])
    requires { (16 * s + 16 ≤ length vals.now) × (length acc.old ≡ 16) }
    ensures { Filled 0 16 (λ k. get_or vals.now (16 * s + k) 0) acc.old acc.new }
{
    acc.copy_from_slice(slot(vals, s));
}

// Puts words into slot s. (By `copy_from_slice` the compiler asks whether the two overlap, which costs `events::run` 9 % more instructions.)
pub fn store(acc: &[u64], s: usize, vals: &mut [u64])
    requires { (16 * s + 16 ≤ length vals.old) × (length acc.now ≡ 16) }
    ensures { Filled (16 * s) 16 (λ k. get_or acc.now k 0) vals.old vals.new }
{
    for (k, word) in vals[ROW * s..ROW * s + ROW].iter_mut().enumerate() {
        *word = acc[k];
    }
}

// Joins each word of acc with the one beside it.
pub fn join<J: Join>(words: &[u64], acc: &mut [u64])
    requires { (length words.now ≡ 16) × (length acc.old ≡ 16) }
    ensures { Filled 0 16 (λ k. J.op (get_or acc.old k 0) (get_or words.now k 0)) acc.old acc.new }
{
    for k in 0..ROW {
        acc[k] = J::join(acc[k], words[k]);
    }
}

// Words with the bits of m turned.
fn turned(m: u64, words: &[u64], out: &mut [u64])
    requires { (length words.now ≡ 16) × (length out.old ≡ 16) }
    ensures { Filled 0 16 (λ k. bit_xor (get_or words.now k 0) m) out.old out.new }
{
    for k in 0..ROW {
        out[k] = words[k] ^ m;
    }
}

// Whether some word differs from that of slot s. (The last line is `x != 0`; of that, as of `acc != slot(vals, s)`, the compiler makes 16 tests, one after the other.)
// Open: true where nothing differs: it only saves work.
pub fn differs(acc: &[u64], vals: &[u64], s: usize) -> bool
    requires { (16 * s + 16 ≤ length vals.now) × (length acc.now ≡ 16) }
    ensures { result ≡ false → (k : ℕ) → k < 16 → get_or acc.now k 0 ≡ get_or vals.now (16 * s + k) 0 }
{
    let words = slot(vals, s);
    let mut x = 0;
    for k in 0..ROW {
        x |= acc[k] ^ words[k];
    }
    (x / 2) | (x % 2) != 0
}

// The words on the pins joined, with the bits of m turned.
fn join_pins<J: Join>(m: u64, src: &[u16], a: usize, n: usize, vals: &[u64], out: &mut [u64])
    requires { (length out.old ≡ 16) × Pins src.now (length vals.now) a n }
    ensures { Filled 0 16 (λ k. bit_xor (joined J.op J.START (on_row src.now vals.now k) a n) m) out.old out.new }
{
    let mut acc = [J::START; ROW];
    for &s in &src[a..a + n] {
        join::<J>(slot(vals, usize::from(s)), &mut acc);
    }
    turned(m, &acc, out);
}

// What a cell of a kind shows in each of 16 words. It has n pins from pin a on, and each looks at the slot that src names.
#[tactic(auto, using(crate::proofs::Fill::unturned), unfolding(words::specs::Lanes::gate_word))]
pub fn gate(kind: u8, src: &[u16], a: usize, n: usize, vals: &[u64], out: &mut [u64])
    requires { (takes kind n ≡ true) × (length out.old ≡ 16) × Pins src.now (length vals.now) a n × (kind < 10) }
    ensures { Filled 0 16 (λ k. gate_word kind (on_row src.now vals.now k) a n) out.old out.new }
{
    match kind {
        2 => join_pins::<And>(0, src, a, n, vals, out),
        3 => join_pins::<Or>(0, src, a, n, vals, out),
        4 => join_pins::<And>(u64::MAX, src, a, n, vals, out),
        5 => join_pins::<Or>(u64::MAX, src, a, n, vals, out),
        6 => join_pins::<Xor>(0, src, a, n, vals, out),
        7 => join_pins::<Xor>(u64::MAX, src, a, n, vals, out),
        0 | 8 => turned(0, slot(vals, usize::from(src[a])), out),
        1 | 9 => turned(u64::MAX, slot(vals, usize::from(src[a])), out),
        10..=255 => {}
    }
}
