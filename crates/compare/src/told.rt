// What both sides tell of an answer or a refusal, laid beside each other.
use crate::tally::Tally;
use netlist::fault::NetlistFault;
use oracle::refusal::Fault;
use run::state::RunFault;
use script::fault::ScriptFault;

// A refusal by its number, the letter of its layer, and its place.
#[derive(Clone, Copy, Debug, PartialEq, Eq)]
pub struct Told {
    number: u32,
    layer: char,
    place: u64,
}

impl Told {
    // As the run and the script tell it, with the letter as a byte.
    fn lettered(number: u8, letter: u8, place: u32) -> Told {
        Told {
            number: u32::from(number),
            layer: char::from(letter),
            place: u64::from(place),
        }
    }
}

impl From<NetlistFault> for Told {
    fn from(fault: NetlistFault) -> Told {
        Told {
            number: u32::from(fault.number()),
            layer: fault.layer(),
            place: fault.place() as u64,
        }
    }
}

impl From<RunFault> for Told {
    fn from(fault: RunFault) -> Told {
        Told::lettered(fault.number(), fault.letter(), fault.place())
    }
}

impl From<ScriptFault> for Told {
    fn from(fault: ScriptFault) -> Told {
        Told::lettered(fault.number(), fault.letter(), fault.place())
    }
}

impl From<Fault> for Told {
    fn from(fault: Fault) -> Told {
        Told {
            number: fault.refusal.number(),
            layer: fault.refusal.layer(),
            place: fault.place,
        }
    }
}

// Whether the bench answers as the simulator does, or refuses as it does.
pub fn same<T: PartialEq + Drop, E: Into<Told> + Drop>(
    tally: &mut Tally,
    found: Result<T, E>,
    own: Result<T, Fault>,
) -> bool {
    match (found, own) {
        (Ok(answer), Ok(own)) => answer == own,
        (Err(fault), Err(own)) => {
            tally.refused(own.refusal);
            fault.into() == Told::from(own)
        }
        _ => false,
    }
}
