// Lays out the bytes of a netlist file.
use std::alloc::{AllocError, Global};

// The kinds of gates; the numbers are those of a file.
#[derive(Clone, Copy, Debug, PartialEq, Eq)]
pub enum Kind {
    Buffer = 1,
    Not,
    And,
    Or,
    Xor,
    Nand,
    Nor,
    Xnor,
    Tri,
    PullUp,
    PullDown,
}

impl From<Kind> for u8 {
    fn from(kind: Kind) -> u8 {
        kind as u8
    }
}

impl Kind {
    // In the order of their numbers.
    pub const ALL: [Kind; 11] = [
        Kind::Buffer,
        Kind::Not,
        Kind::And,
        Kind::Or,
        Kind::Xor,
        Kind::Nand,
        Kind::Nor,
        Kind::Xnor,
        Kind::Tri,
        Kind::PullUp,
        Kind::PullDown,
    ];

    // Pulls use no input.
    pub fn reads_a(self) -> bool {
        !matches!(self, Kind::PullUp | Kind::PullDown)
    }

    // A buffer and a NOT use only the first.
    pub fn reads_b(self) -> bool {
        self.reads_a() && !matches!(self, Kind::Buffer | Kind::Not)
    }
}

// A gate as the file has it.
#[derive(Clone, Copy, Debug, PartialEq, Eq)]
pub struct Gate {
    pub kind: Kind,
    pub a: u16,
    pub b: u16,
    pub out: u16,
    pub delay: u16,
}

// A gate by its numbers: kind, a, b, out and delay. It can be of a kind that no file may have.
#[derive(Clone, Copy)]
pub struct Row(pub u8, pub u16, pub u16, pub u16, pub u16);

impl From<Gate> for Row {
    fn from(gate: Gate) -> Row {
        Row(u8::from(gate.kind), gate.a, gate.b, gate.out, gate.delay)
    }
}

fn push_words(out: &mut Vec<u8>, words: &[u16]) -> Result<(), AllocError> {
    for word in words {
        out.extend_from_slice(&word.to_be_bytes())?;
    }
    Ok(())
}

fn count(n: usize) -> u16 {
    u16::try_from(n).unwrap_or(u16::MAX)
}

// The file of a board: its head, its gates and its watch list.
pub fn file<G: Copy + Into<Row>>(
    heap: Global,
    nets: u16,
    ports: u16,
    gates: &[G],
    watches: &[u16],
) -> Result<Vec<u8>, AllocError> {
    let mut out = Vec::from_slice(heap, b"NLB")?;
    push_words(
        &mut out,
        &[1, nets, ports, count(gates.len()), count(watches.len())],
    )?;
    for gate in gates {
        let Row(kind, a, b, net, delay) = (*gate).into();
        out.push(kind)?;
        push_words(&mut out, &[a, b, net, delay])?;
    }
    push_words(&mut out, watches)?;
    Ok(out)
}
