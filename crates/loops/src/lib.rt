#![tactic(auto)]
// The lowest net that reaches itself: the place of refusal 9.
ghost use Rattle.std.specs.Prelude.{List, ℕ, ◌+◌, ◌<◌, get_or};
ghost use Rattle.chip.specs.Inner.Tables.{FirstPins, tabled};
ghost use Rattle.order.specs.Placed.{Wired, Listed};
ghost use Rattle.order.specs.Settled.{LoopFrom};
ghost use Rattle.chip.specs.Refusals.{When9};
ghost use Rattle.loops.specs.Loops.{OnLoop};
ghost use Rattle.loops.specs.Walk.{Followed};

use chip::{CELLS, Firsts, Nets};
use order::is_fed;

// Puts the cells that drive the pins of cell j on the list, each once. The answer is how many are on it then.
fn follow(
    i: usize,
    c: usize,
    firsts: &Firsts,
    nets: &Nets,
    j: usize,
    list: &mut [u16],
    places: &mut [u16],
    before: usize,
) -> usize
    requires wired { Wired i c firsts.now nets.now }
    requires j_lt_c { j < c }
    requires listed { Listed c list.old places.old before }
    ensures { Followed i c firsts.now nets.now j list.old before list.new places.new result (get_or firsts.now (j + 1) 0) }
{
    let mut n = before;
    for p in usize::from(firsts[j])..usize::from(firsts[j + 1]) {
        let net = usize::from(nets[p]);
        if !is_fed(i, places, net) {
            let h = net - i;
            list[n] = h as u16;
            n += 1;
            places[h] = n as u16;
        }
    }
    n
}

// Whether a cell's net reaches itself: the cells that feed it are listed, and the cell may be one of them. The list grows while
// it is walked, so its index is counted by hand.
fn on_loop(i: usize, c: usize, firsts: &Firsts, nets: &Nets, own: usize) -> bool
    requires wired { Wired i c firsts.now nets.now }
    requires own_lt_c { own < c }
    ensures { (o : ℕ) (kinds counts : List ℕ) → FirstPins (tabled i c o kinds counts nets.now) firsts.now → OnLoop (tabled i c o kinds counts nets.now) own result }
{
    let mut list = [0u16; CELLS];
    let mut places = [0u16; CELLS];
    let mut n = follow(i, c, firsts, nets, own, &mut list, &mut places, 0);
    let mut k = 0;
    while k < n {
        let j = usize::from(list[k]);
        n = follow(i, c, firsts, nets, j, &mut list, &mut places, n);
        k += 1;
    }
    0 < places[own]
}

// The lowest net that reaches itself, of a netlist in which some net does and none below that of cell `from`.
// Open: the answer where no net reaches itself, or one below that of cell `from` does, and for the tables of no netlist: that there is a loop from there on is the caller's to know.
pub fn lowest_on_loop(i: usize, c: usize, firsts: &Firsts, nets: &Nets, from: usize) -> usize
    requires { Wired i c firsts.now nets.now }
    ensures { (o : ℕ) (kinds counts : List ℕ) → FirstPins (tabled i c o kinds counts nets.now) firsts.now → LoopFrom (tabled i c o kinds counts nets.now) from → When9 (tabled i c o kinds counts nets.now) result }
{
    for j in from..c {
        if on_loop(i, c, firsts, nets, j) {
            return i + j;
        }
    }
    i + c
}
