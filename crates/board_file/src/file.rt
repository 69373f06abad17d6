ghost use Rattle.std.specs.Prelude.{◌≤◌, IfOk, vec_len};
ghost use Rattle.netlist.specs.Board.{WellFormed};
ghost use Rattle.netlist.specs.Checks.{verdict};
ghost use Rattle.netlist.specs.Looked.{contents};
ghost use Rattle.board_file.specs.Boards.{BoardOf, OrEmpty};

use netlist::fault::NetlistFault;
use netlist::look_over::look_over;
use netlist::place::Netlist;
use std::alloc::Global;
use std::fs::File;
use std::io;
use std::io::Read;

// At most the first 16,384 bytes of a file; none where it can't be opened.
pub fn board_bytes(rt: &HostRuntime, heap: Global, name: &str) -> io::Result<Vec<u8>>
    ensures { IfOk result (λ v. vec_len v ≤ 16384) }
{
    let mut bytes = Vec::new(heap);
    if let Ok(file) = File::open(rt, name) {
        file.take(16384).read_to_end(&mut bytes)?;
    }
    // what `take` reads is not in its contract, so the length is made sure of here
    bytes.truncate(16384);
    Ok(bytes)
}

// The netlist of a file, or why the file is refused.
pub fn board_of(bytes: &[u8]) -> Result<Netlist, NetlistFault>
    ensures { BoardOf bytes.now result }
{
    let mut board = Netlist::new();
    look_over(bytes, &mut board)?;
    Ok(board)
}

// The netlist of a file; for a file that is refused, the one that a place starts with.
pub fn board_or_empty(bytes: &[u8]) -> Netlist
    ensures board { OrEmpty bytes.now (verdict bytes.now) result }
    ensures sound { WellFormed (contents result) }
{
    board_of(bytes).unwrap_or(Netlist::new())
}
