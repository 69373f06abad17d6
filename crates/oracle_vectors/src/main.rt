// Holds the independent simulator to the outside vectors.

#![tactic(auto)]

use oracle::family::Family;
use oracle::script;
use std::io;
use vectors::values::Values;
use vectors::vector;

// Kept as it is: the vectors share nothing with the oracle, and no crate below has both.
fn family_of(values: Values) -> Family {
    match values {
        Values::Nine => Family::Nine,
        Values::Pulls => Family::Pulls,
    }
}

fn main(rt: HostRuntime) -> io::Result<()> {
    let heap = rt.alloc();
    let vectors = vector::all(heap)?;
    for v in vectors.iter() {
        let (family, board) = (family_of(v.values), v.board.as_slice());
        let answers = script::bench(heap, family, board, v.script.as_bytes())?;
        let verdict = if v.agrees(answers.as_bytes()) {
            "agrees"
        } else {
            "DIFFERS"
        };
        let name = v.name;
        println!(rt; "{name} {verdict}")?;
    }
    Ok(())
}
