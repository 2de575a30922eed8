#![tactic(auto)]
// The slots of a chunk of patterns: those of an output's variables, and the one that each pin looks at, in the good circuit and under a fault.
// A slot holds what the patterns of the chunk give one place: slots 0 to 15 are the variables, slot 16 + j is cell j's, slot 1040 holds zeros and slot 1041 ones.
ghost use Rattle.std.specs.Prelude.{◌≡◌, ℕ, ◌+◌, ◌≤◌, ◌<◌, length, get_or};
ghost use Rattle.slots.specs.Slots.{rel_of, Variables, slot_of, PinSlots, fault_slot, FaultSlots};

use chip::{BLOCKS, Block, Branches, Nets, PINS, Reached};

// Gives each of the first b blocks that reaches output z the next variable's slot, and the others the zeros. Answers how many variables there are.
// Open: entries past the blocks: a table of 4,160 of which the blocks are in use.
pub fn variables(z: usize, b: usize, reached: &Reached, table: &mut [u16]) -> usize
    requires { (z < 64) × (b ≤ 4160) × (length table.old ≡ 4160) }
    ensures { Variables b (rel_of reached.now z) table.new result }
{
    let mut w = 0u16;
    for (k, &outs) in reached[..b].iter().enumerate() {
        if words::has_bit(outs, z) {
            table[k] = w;
            w += 1;
        } else {
            table[k] = 1040;
        }
    }
    usize::from(w)
}

// The slot of a pin that is a branch, names a net and is in a block. A branch has its block's slot; another pin that names an input goes into a pad buffer, and what it sees does not matter.
fn slot(i: usize, slots: &[u16; BLOCKS], branch: u16, net: u16, block: u16) -> u16
    requires { (i ≤ 64) × (net ≤ i + 1024) × (branch < i → block < 4160) }
    ensures { result ≡ slot_of i slots.now branch net block }
{
    if usize::from(branch) < i {
        return slots[usize::from(block)];
    }
    if usize::from(net) < i {
        return 1040;
    }
    16 + (net - (i as u16))
}

// The slots of the first n pins.
// Open: entries past the pins: a table of 4,096 of which the pins are in use.
pub fn pin_slots(
    i: usize,
    n: usize,
    slots: &[u16; BLOCKS],
    branches: &Branches,
    nets: &Nets,
    block: &Block,
    sources: &mut [u16],
)
    requires i_bound { (i ≤ 64) × (n ≤ 4096) × (length sources.old ≡ 4096) }
    requires by_index { (p : ℕ) → p < n → (get_or nets.now p 0 ≤ i + 1024) × (get_or branches.now p 0 < i → get_or block.now p 0 < 4160) }
    ensures { PinSlots i n slots.now branches.now nets.now block.now sources.new }
{
    for p in 0..n {
        sources[p] = slot(i, slots, branches[p], nets[p], block[p]);
    }
}

// The slot in the faulty circuit of a pin that is decided to a byte: that of the constant, or its good slot.
fn fault_slot(byte: u8, good: u16) -> u16
    ensures { result ≡ fault_slot byte good }
{
    if byte < 2 {
        return 1040 + u16::from(byte);
    }
    good
}

// The slots of the n pins in the faulty circuit.
// Open: entries past the pins: a table of 4,096 of which the pins are in use.
pub fn fault_slots(n: usize, decided: &[u8; PINS], good: &[u16], faulty: &mut [u16; PINS])
    requires { (n ≤ 4096) × (length faulty.old ≡ 4096) × (n ≤ length good.now) }
    ensures { FaultSlots n decided.now good.now faulty.new }
{
    for p in 0..n {
        faulty[p] = fault_slot(decided[p], good[p]);
    }
}
