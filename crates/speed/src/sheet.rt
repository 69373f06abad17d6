use std::alloc::{AllocError, Global};
use vectors::laid;
use vectors::laid::{Gate, Kind};

// A board as it is drawn: its gates so far, and the first net that is still free.
#[derive(Drop)]
pub struct Sheet {
    gates: Vec<Gate>,
    free: u16,
}

impl Sheet {
    pub fn new(heap: Global) -> Sheet {
        Sheet {
            gates: Vec::new(heap),
            free: 0,
        }
    }

    // One driver more of the net `out`.
    pub fn join(
        &mut self,
        kind: Kind,
        a: u16,
        b: u16,
        out: u16,
        delay: u16,
    ) -> Result<(), AllocError> {
        self.gates.push(Gate {
            kind,
            a,
            b,
            out,
            delay,
        })?;
        Ok(())
    }

    // A gate with a net of its own, which it answers.
    pub fn add(&mut self, kind: Kind, a: u16, b: u16, delay: u16) -> Result<u16, AllocError> {
        let out = self.free;
        self.free = out.saturating_add(1);
        self.join(kind, a, b, out, delay)?;
        Ok(out)
    }

    // The netlist file, with the first nets watched, `watched` of them or all that there are.
    pub fn file(&self, heap: Global, watched: u16) -> Result<Vec<u8>, AllocError> {
        let watches = (0..watched.min(self.free)).collect::<Vec<u16>>(heap)?;
        let (gates, watches) = (self.gates.as_slice(), watches.as_slice());
        laid::file(heap, self.free, 0, gates, watches)
    }
}
