ghost use Rattle.std.specs.Prelude.{◌≡◌};
ghost use Rattle.netlist.specs.Board.{total_delay, WellFormed};
ghost use Rattle.netlist.specs.Looked.{contents};
ghost use Rattle.netlist.specs.Stock.{stock};

use crate::place::Netlist;

// What a board holds, in numbers.
#[derive(Clone, Copy, Debug, PartialEq, Eq)]
pub struct Inventory {
    pub nets: u16,
    pub ports: u16,
    pub gates: u16,
    pub watched: u16,
    pub delay: u32,
}

impl Netlist {
    // The ticks of delay of all the gates: as many entries as a run can ever have waiting.
    pub fn total_delay(&self) -> u32
        ensures { result ≡ total_delay (contents self.now) }
    {
        self.gates[..self.head.gates as usize]
            .iter()
            .map(|g| u32::from(g.delay))
            .sum()
    }

    // Counts what the board holds.
    pub fn inventory(&self) -> Inventory
        ensures counts { result ≡ stock (contents self.now) }
        ensures sound { WellFormed (contents self.now) }
    {
        Inventory {
            nets: self.head.nets,
            ports: self.head.ports,
            gates: self.head.gates,
            watched: self.head.watches,
            delay: self.total_delay(),
        }
    }
}
