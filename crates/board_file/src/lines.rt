ghost use Rattle.std.specs.Prelude.{◌≡◌, IfOk, string_bytes};
ghost use Rattle.board_file.specs.Lines.{refusal_text, inventory_text};

use netlist::fault::NetlistFault;
use netlist::inventory::Inventory;
use std::alloc::{AllocError, Global};

// The line that answers a refused file; no line of a script is to blame, so its line number is 0.
pub fn refusal_line(heap: Global, fault: NetlistFault) -> Result<String, AllocError>
    ensures { IfOk result (λ s. string_bytes s ≡ refusal_text fault) }
{
    format!(in heap; "no 0 {fault}")
}

// The line that says what a board holds.
pub fn inventory_line(heap: Global, held: Inventory) -> Result<String, AllocError>
    ensures { IfOk result (λ s. string_bytes s ≡ inventory_text held) }
{
    let Inventory {
        nets,
        ports,
        gates,
        watched,
        delay,
    } = held;
    format!(in heap;
        "nets {nets}, ports {ports}, gates {gates}, watched {watched}, ticks of delay {delay}"
    )
}
