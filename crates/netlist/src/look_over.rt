ghost use Rattle.std.specs.Prelude.{◌≡◌};
ghost use Rattle.netlist.specs.Answers.{answer};
ghost use Rattle.netlist.specs.Board.{WellFormed};
ghost use Rattle.netlist.specs.Checks.{verdict};
ghost use Rattle.netlist.specs.Looked.{After, Exactly, contents, unfilled};

use crate::fault::NetlistFault;
use crate::gate::{Gate, Head};
use crate::place::Netlist;
use crate::reader::{File, all_driven};

// Reads a file into the place, or refuses it.
fn fill(bytes: &[u8], place: &mut Netlist) -> Result<(), NetlistFault>
    ensures answers { result ≡ answer (verdict bytes.now) tt }
    ensures fills { After bytes.now (verdict bytes.now) place.old place.new }
{
    let file = File::open(bytes)?;
    let head = file.head;
    let gates = file.gates()?;
    let watches = file.watches()?;
    all_driven(&gates[..head.gates as usize], head.ports, head.nets)?;
    *place = Netlist {
        head,
        gates,
        watches,
    };
    Ok(())
}

// Fills the place with the netlist of a file, or refuses the file and leaves the place as it was.
pub fn look_over(bytes: &[u8], place: &mut Netlist) -> Result<(), NetlistFault>
    ensures answers { result ≡ answer (verdict bytes.now) tt }
    ensures fills { After bytes.now (verdict bytes.now) place.old place.new }
    ensures exactly { Exactly bytes.now place.new result }
    ensures sound { WellFormed (contents place.new) }
{
    fill(bytes, place)
}

impl Netlist {
    // One net, a port, watched, and no gate.
    pub fn new() -> Netlist
        ensures { contents result ≡ unfilled }
    {
        Netlist {
            head: Head {
                nets: 1,
                ports: 1,
                gates: 0,
                watches: 1,
            },
            gates: [Gate::BLANK; 1024],
            watches: [0; 1024],
        }
    }
}
