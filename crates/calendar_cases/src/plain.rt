use crate::call::{Answer, Call};
use calendar::entry::{CalendarFault, Entry, Reason};
use std::alloc::{AllocError, Global};
use std::collections::BTreeMap;

// The same calls over a map in order, the plainest way.
#[derive(Drop)]
pub struct Plain {
    pub today: u32,
    pub gates: u16,
    capacity: u32,
    // the code that waits for a tick and a gate
    waiting: BTreeMap<(u32, u16), u16>,
}

impl Plain {
    pub fn new(heap: Global, gates: u16, capacity: u32) -> Plain {
        Plain {
            today: 0,
            gates,
            capacity,
            waiting: BTreeMap::new(heap),
        }
    }

    pub fn ask(&mut self, call: Call) -> Result<Answer, AllocError> {
        Ok(match call {
            Call::Put(tick, gate, code) => self.put(tick, gate, code)?.into(),
            Call::Next => self.next().into(),
            Call::Take => self.take().into(),
            Call::Turn(tick) => self.turn(tick).into(),
            Call::Now => Answer::Number(self.today),
            Call::Gates => Answer::Number(u32::from(self.gates)),
            Call::Capacity => Answer::Number(self.capacity),
        })
    }

    // How many entries wait.
    pub fn waits(&self) -> usize {
        self.waiting.len()
    }

    // Made here and not by the calendars' crate, whose faults it is laid beside.
    fn fault(&self, reason: Reason) -> CalendarFault {
        CalendarFault {
            reason,
            place: self.today,
        }
    }

    // Refuses a put of this tick and gate that may not be.
    fn check(&self, tick: u32, gate: u16) -> Result<(), CalendarFault> {
        if gate >= self.gates {
            return Err(self.fault(Reason::NoGate));
        }
        if tick <= self.today || tick - self.today > 64 {
            return Err(self.fault(Reason::BadTick));
        }
        if self.waiting.contains_key(&(tick, gate)) {
            return Err(self.fault(Reason::Twice));
        }
        if self.waiting.len() >= self.capacity as usize {
            return Err(self.fault(Reason::Full));
        }
        Ok(())
    }

    fn put(
        &mut self,
        tick: u32,
        gate: u16,
        code: u16,
    ) -> Result<Result<(), CalendarFault>, AllocError> {
        if let Err(fault) = self.check(tick, gate) {
            return Ok(Err(fault));
        }
        self.waiting.insert((tick, gate), code)?;
        Ok(Ok(()))
    }

    pub fn next(&self) -> Option<u32> {
        self.waiting.first_key_value().map(|((tick, _), _)| *tick)
    }

    fn take(&mut self) -> Option<Entry> {
        let ((tick, gate), code) = self.waiting.pop_first()?;
        Some(Entry { tick, gate, code })
    }

    fn turn(&mut self, tick: u32) -> Result<(), CalendarFault> {
        let passes = self.next().is_some_and(|first| first < tick);
        if tick < self.today || tick > 16_777_216 || passes {
            return Err(self.fault(Reason::BadTurn));
        }
        self.today = tick;
        Ok(())
    }
}
