ghost use Rattle.std.specs.Prelude.{◌≡◌, ℕ, ◌*◌, ◌/◌, ◌<◌, ◌≤◌, min, true, length};
ghost use Rattle.calendar.specs.Agenda.{put_answer, first, first_tick, sound, new_agenda};
ghost use Rattle.calendar.specs.Table.{slot};
ghost use Rattle.wheel.specs.Rings.{wheel_agenda, Inside};

use crate::roster::{ROWS, add_gate, first_gate, first_wait, remove_gate, stands};
use calendar::calendar::Calendar;
use calendar::checks::{check_slot, check_turn};
use calendar::entry::{CalendarFault, Entry, Reason};
use number_set::set::NumberSet;

// A calendar in a buffer of codes that the caller lends: a row for each tick that can wait, in it a
// place for each gate. The roster says which of them wait.
// Kept as it is: the codes stand in a buffer that the caller lends, since nothing is allocated while a run advances.
#[derive(Drop)]
pub struct Wheel<'a> {
    codes: &'a mut [u16],
    gates: u16,
    roster: [NumberSet; ROWS],
    today: u32,
    count: u32,
    soon: Option<u32>,
    ghost wide: { 65 * gates ≤ length codes.now },
    ghost few: { gates ≤ 1024 },
    ghost sets: { length roster ≡ 65 },
    ghost inside: { Inside gates roster },
    ghost fits: { today ≤ 16777216 },
    ghost counted: { count ≡ length (wheel_agenda today gates roster codes.now).waiting },
    ghost sound: { sound (wheel_agenda today gates roster codes.now) ≡ true },
    ghost soonest: { soon ≡ first_tick (wheel_agenda today gates roster codes.now).waiting },
}

impl<'a> Wheel<'a> {
    // A gate for each 65 places of the buffer, at most 1,024; what the buffer held does not matter.
    pub fn new(buffer: &'a mut [u16]) -> Wheel<'a>
        ensures { wheel_agenda result.today result.gates result.roster result.codes.now ≡ new_agenda (min (length buffer.old / 65) 1024) (64 * min (length buffer.old / 65) 1024) }
    {
        let gates = (buffer.len() / ROWS).min(1024) as u16;
        Wheel {
            codes: buffer,
            gates,
            roster: [NumberSet::new(); ROWS],
            today: 0,
            count: 0,
            soon: None,
        }
    }

    // Where the code of a tick and gate stands.
    fn place(&self, tick: u32, gate: u16) -> usize
        requires { gate < self.now.gates }
        ensures value { result ≡ slot self.now.gates tick gate }
        ensures inside { result < length self.now.codes.now }
    {
        (tick as usize % ROWS) * self.gates as usize + gate as usize
    }

    // What a put answers.
    fn check_put(&self, e: Entry) -> Result<(), CalendarFault>
        ensures { result ≡ put_answer (wheel_agenda self.now.today self.now.gates self.now.roster self.now.codes.now) e }
    {
        check_slot(self.today, self.gates, e)?;
        if stands(&self.roster, e.tick, e.gate) {
            return Err(Reason::Twice.at(self.today));
        }
        if self.count >= self.capacity() {
            return Err(Reason::Full.at(self.today));
        }
        Ok(())
    }

    // The first entry that waits.
    fn head(&self) -> Option<Entry>
        ensures { result ≡ first (wheel_agenda self.now.today self.now.gates self.now.roster self.now.codes.now).waiting }
    {
        let tick = self.soon?;
        let gate = first_gate(&self.roster, tick)?;
        let code = self.codes[self.place(tick, gate)];
        Some(Entry { tick, gate, code })
    }
}

impl<'a> Calendar for Wheel<'a> {
    ghost meaning = { λ w. wheel_agenda w.today w.gates w.roster w.codes.now };

    ghost lawful = { λ w. w.sound };

    ghost small = { λ w. w.few };

    fn put(&mut self, tick: u32, gate: u16, code: u16) -> Result<(), CalendarFault> {
        self.check_put(Entry { tick, gate, code })?;
        let at = self.place(tick, gate);
        self.codes[at] = code;
        add_gate(&mut self.roster, tick, gate);
        self.soon = Some(self.soon.map_or(tick, |t| t.min(tick)));
        self.count += 1;
        Ok(())
    }

    fn next(&self) -> Option<u32> {
        self.soon
    }

    fn take(&mut self) -> Option<Entry> {
        let e = self.head()?;
        remove_gate(&mut self.roster, e.tick, e.gate);
        self.soon = first_wait(&self.roster, e.tick, self.today + ROWS as u32);
        self.count -= 1;
        Some(e)
    }

    fn turn(&mut self, tick: u32) -> Result<(), CalendarFault> {
        check_turn(self.today, tick, self.soon)?;
        self.today = tick;
        Ok(())
    }

    fn now(&self) -> u32 {
        self.today
    }

    fn gates(&self) -> u16 {
        self.gates
    }

    fn capacity(&self) -> u32 {
        64 * self.gates as u32
    }
}
