// Reads a netlist file from its bytes, or says what is wrong with it.
use crate::kind::Kind;
use crate::refusal::{Failure, Fault, Refusal};
use std::alloc::{AllocError, Global};

#[derive(Clone, Copy, Debug, PartialEq, Eq)]
pub struct Gate {
    // its number in a file; the simulator takes any
    pub kind: u8,
    pub a: u32,
    pub b: u32,
    pub out: u32,
    pub delay: u32,
}

#[derive(Drop)]
pub struct Board {
    pub nets: u32,
    pub ports: u32,
    pub gates: Vec<Gate>,
    pub watches: Vec<u32>,
}

// A file whose head and length are right, its gates and its watch list still as bytes.
#[derive(Clone, Copy)]
struct File<'a> {
    nets: u32,
    ports: u32,
    gates: &'a [u8],
    watches: &'a [u8],
}

// Two bytes, the high one first.
fn word(pair: [u8; 2]) -> u32 {
    u32::from(u16::from_be_bytes(pair))
}

impl Gate {
    fn read(record: [u8; 9], nets: u32) -> Result<Gate, Refusal> {
        let [kind, a, b, c, d, e, f, g, h] = record;
        let kind = Kind::try_from(kind)?;
        let (a, b) = (word([a, b]), word([c, d]));
        let (out, delay) = (word([e, f]), word([g, h]));
        let unused_is_set = (!kind.reads_a() && a != 0) || (!kind.reads_b() && b != 0);
        if a >= nets || b >= nets || out >= nets || unused_is_set {
            return Err(Refusal::Net);
        }
        if delay == 0 || delay > 64 {
            return Err(Refusal::Delay);
        }
        Ok(Gate {
            kind: u8::from(kind),
            a,
            b,
            out,
            delay,
        })
    }
}

impl<'a> File<'a> {
    fn read(bytes: &'a [u8]) -> Result<File<'a>, Fault> {
        let length = bytes.len() as u64;
        let Some((head, rest)) = bytes.split_first_chunk::<13>() else {
            return Err(Refusal::Short.at(length));
        };
        let [_, _, _, v0, v1, n0, n1, p0, p1, g0, g1, w0, w1] = *head;
        let (nets, ports) = (word([n0, n1]), word([p0, p1]));
        let (count, watched) = (word([g0, g1]), word([w0, w1]));
        Refusal::Mark.unless(head.starts_with(b"NLB"), 0)?;
        Refusal::Version.unless(word([v0, v1]) == 1, 3)?;
        Refusal::Count.unless((1..=1024).contains(&nets), 5)?;
        Refusal::Count.unless(ports <= nets, 7)?;
        Refusal::Count.unless(count <= 1024, 9)?;
        Refusal::Count.unless((1..=nets).contains(&watched), 11)?;
        match rest.split_at_checked(9 * count as usize) {
            Some((gates, watches)) if watches.len() == 2 * watched as usize => Ok(File {
                nets,
                ports,
                gates,
                watches,
            }),
            _ => Err(Refusal::Length.at(length)),
        }
    }

    // The gates, each a record of nine bytes.
    fn gates(&self, heap: Global) -> Result<Vec<Gate>, Failure> {
        let mut gates = Vec::new(heap);
        let (records, _) = self.gates.as_chunks::<9>();
        for (g, record) in records.iter().enumerate() {
            let place = (g as u64).saturating_mul(9).saturating_add(13);
            gates.push(Gate::read(*record, self.nets).map_err(|refusal| refusal.at(place))?)?;
        }
        Ok(gates)
    }

    // The watch list stands behind the gates: nets, each above the one before.
    fn watches(&self, heap: Global) -> Result<Vec<u32>, Failure> {
        let from = (self.gates.len() as u64).saturating_add(13);
        let mut watches = Vec::new(heap);
        let (pairs, _) = self.watches.as_chunks::<2>();
        for (i, pair) in pairs.iter().enumerate() {
            let net = word(*pair);
            let rises = watches.last().is_none_or(|before| *before < net);
            let place = (i as u64).saturating_mul(2).saturating_add(from);
            Refusal::Watch.unless(net < self.nets && rises, place)?;
            watches.push(net)?;
        }
        Ok(watches)
    }
}

// The board that a file describes, or the first thing wrong with the file.
pub fn decode(heap: Global, bytes: &[u8]) -> Result<Board, Failure> {
    let file = File::read(bytes)?;
    let gates = file.gates(heap)?;
    let watches = file.watches(heap)?;
    let (nets, ports) = (file.nets, file.ports);
    let undriven = (ports..nets).find(|net| !gates.iter().any(|gate| gate.out == *net));
    if let Some(net) = undriven {
        return Err(Refusal::Undriven.at(u64::from(net)).into());
    }
    Ok(Board {
        nets,
        ports,
        gates,
        watches,
    })
}
