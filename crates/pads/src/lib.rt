#![tactic(auto)]
// The input that each pin is a branch of. A pad buffer, a BUF that an input or another pad buffer feeds, belongs to that input.
ghost use Rattle.std.specs.Prelude.{◌≡◌, ◌≤◌, length};
ghost use Rattle.chip.specs.Netlist.{all_pins};
ghost use Rattle.chip.specs.Inner.Tables.{BranchTable};
ghost use Rattle.order.specs.Sorted.{netlist_in, IsSorted};
ghost use Rattle.pads.specs.Sources.{source_of, Inputs, SourceTable, Named};

use chip::{ALL_NETS, PINS};
use order::Sorted;

// The source of a cell's net: that of the net that feeds it, if the cell is a BUF behind one of the i inputs, else itself.
#[tactic(auto, unfolding(crate::specs::Sources::source_of))]
fn cell_source(i: usize, kind: u8, own: u16, fed: u16) -> u16
    ensures { result ≡ source_of i kind own fed }
{
    if kind == 0 && usize::from(fed) < i {
        fed
    } else {
        own
    }
}

// Each input is its own source.
fn input_sources(i: usize, table: &mut [u16])
    requires { (i ≤ 64) × (length table.old ≡ 1088) }
    ensures { Inputs i table.new }
{
    for (x, source) in table[..i].iter_mut().enumerate() {
        *source = x as u16;
    }
}

// The sources of the cells' nets, in the order of the cells.
fn cell_sources(cells: Sorted<'_>, table: &mut [u16])
    requires sorted { IsSorted cells }
    requires inputs { Inputs cells.sizes.inputs table.old }
    ensures { SourceTable (netlist_in cells.entry) table.new }
{
    let (i, nets, order) = (cells.sizes.inputs, cells.nets, cells.order);
    for &cell in &order[..cells.sizes.cells] {
        let j = usize::from(cell);
        let p = usize::from(cells.firsts[j]);
        let fed = table[usize::from(nets[p])];
        table[i + j] = cell_source(i, cells.kinds[j], (i + j) as u16, fed);
    }
}

// The source of each net: the input that it is, or is the net of a pad buffer of. Any other net is its own source.
// Open: entries past the nets: a table of 1,088 of which the nets are in use.
pub fn sources(cells: Sorted<'_>, table: &mut [u16])
    requires sorted { IsSorted cells }
    requires table_len { length table.old ≡ 1088 }
    ensures { SourceTable (netlist_in cells.entry) table.new }
{
    input_sources(cells.sizes.inputs, table);
    cell_sources(cells, table);
}

// The source of each pin's net.
fn pin_sources(cells: Sorted<'_>, sources: &[u16], table: &mut [u16])
    requires sorted { IsSorted cells }
    requires pins_value { cells.sizes.pins ≡ all_pins (netlist_in cells) }
    requires source_table { SourceTable (netlist_in cells) sources.now }
    requires table_len { length table.old ≡ 4096 }
    ensures { Named (netlist_in cells.entry) cells.entry.sizes.pins table.new }
{
    for p in 0..cells.sizes.pins {
        table[p] = sources[usize::from(cells.nets[p])];
    }
}

// The pins into pad buffers are no branches.
fn leave_out(cells: Sorted<'_>, sources: &[u16], table: &mut [u16])
    requires sorted { IsSorted cells }
    requires pins_value { cells.sizes.pins ≡ all_pins (netlist_in cells) }
    requires source_table { SourceTable (netlist_in cells) sources.now }
    requires named { Named (netlist_in cells) cells.sizes.pins table.old }
    ensures { BranchTable (netlist_in cells.entry) table.new }
{
    let i = cells.sizes.inputs;
    for j in 0..cells.sizes.cells {
        if usize::from(sources[i + j]) < i {
            table[usize::from(cells.firsts[j])] = i as u16;
        }
    }
}

// The input that each of the pins is a branch of; for a pin that is none, no input's number.
// Open: entries past the pins: a table of 4,096 of which the pins are in use.
pub fn branches(cells: Sorted<'_>, table: &mut [u16; PINS])
    requires sorted { IsSorted cells }
    requires pins_value { cells.sizes.pins ≡ all_pins (netlist_in cells) }
    ensures { BranchTable (netlist_in cells.entry) table.new }
{
    let mut origins = [0u16; ALL_NETS];
    sources(cells, &mut origins);
    pin_sources(cells, &origins, table);
    leave_out(cells, &origins, table);
}
