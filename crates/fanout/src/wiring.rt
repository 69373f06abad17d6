ghost use Rattle.std.specs.Prelude.{◌≡◌, length};
ghost use Rattle.netlist.specs.Looked.{contents};
ghost use Rattle.fanout.specs.Seek.{Firsts, Nexts};
ghost use Rattle.fanout.specs.declared.pin.Pin.TheVariants.{Output, First, Second};

use netlist::place::Netlist;

// For each net the first gate that meets it, and for each gate the next that meets the same net; behind the nets
// the first gate whose kind does not use the pin.
// Kept as it is: 1,024 is none: options took twice the room, and 4.6 % more instructions on board `rings`.
#[derive(Drop)]
pub struct Chain {
    pub first: [u16; 1025],
    pub next: [u16; 1024],
}

// A netlist with its gates chained by output and by input, each chain in file order.
#[derive(Drop)]
pub struct Wiring {
    pub net: Netlist,
    pub outputs: Chain,
    pub firsts: Chain,
    pub seconds: Chain,
    ghost output_heads: { Firsts (contents net) Output outputs.first },
    ghost output_links: { Nexts (contents net) Output outputs.next },
    ghost first_heads: { Firsts (contents net) First firsts.first },
    ghost first_links: { Nexts (contents net) First firsts.next },
    ghost second_heads: { Firsts (contents net) Second seconds.first },
    ghost second_links: { Nexts (contents net) Second seconds.next },
}
