ghost use Rattle.std.specs.Prelude.{◌≡◌, ℕ, ◌<◌, ◌≤◌, min, true, length};
ghost use Rattle.std.proofs.Common.{lit≤};
ghost use Rattle.calendar.specs.Agenda.{Agenda, new_agenda, sound};
ghost use Rattle.heap.specs.Heaps.{heap_agenda};
ghost use Rattle.heap.specs.Marks.{marked, Marked};

use crate::marks::Marks;
use crate::pile::Pile;
use calendar::calendar::Calendar;
use calendar::checks::{check_slot, check_turn};
use calendar::entry::{CalendarFault, Entry, Reason};

pub const GATES: u16 = 1024;

// A calendar in a buffer of entries that the caller lends: a heap by tick, then gate.
#[derive(Drop)]
pub struct Heap<'a> {
    pile: Pile<'a>,
    marks: Marks,
    today: u32,
    ghost small: { pile.room ≤ 65536 },
    ghost sound: { sound (heap_agenda today pile) ≡ true },
    ghost marked: { Marked (marked marks.rows) 1024 today pile.waiting },
}

impl<'a> Heap<'a> {
    // Of a buffer longer than 65,536 only the first 65,536 are used.
    pub fn new(buffer: &'a mut [Entry]) -> Heap<'a>
        ensures { heap_agenda result.today result.pile ≡ new_agenda 1024 (min (length buffer.old) 65536) }
    {
        let n = buffer.len().min(65536);
        Heap {
            pile: Pile::new(&mut buffer[..n]),
            marks: Marks {
                rows: [[false; GATES as usize]; 65],
            },
            today: 0,
        }
    }
}

impl<'a> Calendar for Heap<'a> {
    ghost meaning = { λ h. heap_agenda h.today h.pile };

    ghost lawful = { λ h. h.sound };

    ghost small = { λ h. lit≤ tt };

    fn put(&mut self, tick: u32, gate: u16, code: u16) -> Result<(), CalendarFault> {
        let e = Entry { tick, gate, code };
        check_slot(self.today, GATES, e)?;
        if self.marks.stands(tick, gate) {
            return Err(Reason::Twice.at(self.today));
        }
        if self.pile.is_full() {
            return Err(Reason::Full.at(self.today));
        }
        self.pile.push(e);
        self.marks.mark(tick, gate, true);
        Ok(())
    }

    fn next(&self) -> Option<u32> {
        self.pile.first().map(|e| e.tick)
    }

    fn take(&mut self) -> Option<Entry> {
        let e = self.pile.pop()?;
        self.marks.mark(e.tick, e.gate, false);
        Some(e)
    }

    fn turn(&mut self, tick: u32) -> Result<(), CalendarFault> {
        check_turn(self.today, tick, self.next())?;
        self.today = tick;
        Ok(())
    }

    fn now(&self) -> u32 {
        self.today
    }

    fn gates(&self) -> u16 {
        GATES
    }

    fn capacity(&self) -> u32 {
        self.pile.room() as u32
    }
}
