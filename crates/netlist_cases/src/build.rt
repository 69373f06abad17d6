// A case starts from a good file, which its changes damage.
use netlist::fault::NetlistFault;
use netlist::inventory::Inventory;
use std::alloc::{AllocError, Global};
use vectors::laid;
use vectors::laid::{Gate, Kind};

// What a board has.
#[derive(Clone, Copy, PartialEq)]
pub(crate) struct Counts {
    pub(crate) nets: u16,
    pub(crate) ports: u16,
    pub(crate) gates: u16,
    pub(crate) watched: u16,
}

impl From<Inventory> for Counts {
    fn from(held: Inventory) -> Counts {
        Counts {
            nets: held.nets,
            ports: held.ports,
            gates: held.gates,
            watched: held.watched,
        }
    }
}

// What is done to a file. Offsets count from 0; a longer file ends in zeros.
#[derive(Clone, Copy)]
pub(crate) enum Change {
    Length(usize),
    Byte(usize, u8),
    Word(usize, u16),
}

// The number and the place of a refusal.
#[derive(Clone, Copy, PartialEq)]
pub(crate) struct Refusal {
    pub(crate) number: u8,
    pub(crate) place: usize,
}

impl From<NetlistFault> for Refusal {
    fn from(fault: NetlistFault) -> Refusal {
        Refusal {
            number: fault.number(),
            place: fault.place(),
        }
    }
}

// A good board, the changes of its file, and the refusal, or none of a file that is accepted.
#[derive(Clone, Copy)]
pub(crate) struct Case {
    pub(crate) board: Counts,
    pub(crate) changes: &'static [Change],
    pub(crate) refusal: Option<Refusal>,
}

// Gate g has kind 1 + g mod 11 and delay 1 + g mod 64. It reads the last net where its kind reads any,
// and drives the g-th net behind the ports, or the last.
fn nth_gate(board: Counts, g: u16) -> Gate {
    let last = board.nets.saturating_sub(1);
    let kind = Kind::ALL[(g % 11) as usize];
    Gate {
        kind,
        a: if kind.reads_a() { last } else { 0 },
        b: if kind.reads_b() { last } else { 0 },
        out: board.ports.saturating_add(g).min(last),
        delay: 1 + g % 64,
    }
}

// The file of a board that watches its first nets.
fn good_file(heap: Global, board: Counts) -> Result<Vec<u8>, AllocError> {
    let gates = (0..board.gates)
        .map(|g| nth_gate(board, g))
        .collect::<Vec<Gate>>(heap)?;
    let watches = (0..board.watched).collect::<Vec<u16>>(heap)?;
    let (gates, watches) = (gates.as_slice(), watches.as_slice());
    laid::file(heap, board.nets, board.ports, gates, watches)
}

// Writes the bytes from an offset on, as far as the file goes.
fn overwrite(file: &mut [u8], at: usize, bytes: &[u8]) {
    for (old, new) in file.iter_mut().skip(at).zip(bytes) {
        *old = *new;
    }
}

impl Change {
    fn damage(self, file: &mut Vec<u8>) -> Result<(), AllocError> {
        match self {
            Change::Length(length) => file.resize(length, 0)?,
            Change::Byte(at, byte) => overwrite(file, at, &[byte]),
            Change::Word(at, word) => overwrite(file, at, &word.to_be_bytes()),
        }
        Ok(())
    }
}

impl Case {
    pub(crate) fn number(&self) -> Option<u8> {
        self.refusal.map(|refusal| refusal.number)
    }

    pub(crate) fn file(&self, heap: Global) -> Result<Vec<u8>, AllocError> {
        let mut file = good_file(heap, self.board)?;
        for change in self.changes {
            change.damage(&mut file)?;
        }
        Ok(file)
    }
}
