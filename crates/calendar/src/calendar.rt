ghost use Rattle.std.specs.Prelude.{◌≡◌, ◌≤◌, true};
ghost use Rattle.calendar.specs.Agenda.{Agenda, entry, put_answer, put_after, with_waiting, first, rest, first_tick, turn_answer, turn_after, sound};

use crate::entry::{CalendarFault, Entry};

// What waits, and for when. The clauses speak of the meaning alone, so that no caller sees a
// difference between two calendars, and no call requires anything.
pub trait Calendar {
    // Now, the gates, the capacity and the waiting entries.
    ghost meaning: { Self → Agenda };

    // Entries stand in order of tick, then gate, each in its time and of a gate, and no more than there is room for.
    ghost lawful: { (c : Self) → sound (meaning c) ≡ true };

    // A table of 1,024 has a place for each gate.
    ghost small: { (c : Self) → (meaning c).gates ≤ 1024 };

    // Adds an entry, or refuses with 11 to 14.
    fn put(&mut self, tick: u32, gate: u16, code: u16) -> Result<(), CalendarFault>
        ensures answer { result ≡ put_answer (meaning self.old) (entry tick gate code) }
        ensures after { meaning self.new ≡ put_after (meaning self.old) (entry tick gate code) };

    // The earliest waiting tick.
    fn next(&self) -> Option<u32>
        ensures { result ≡ first_tick (meaning self.now).waiting };

    // Removes the first entry.
    fn take(&mut self) -> Option<Entry>
        ensures answer { result ≡ first (meaning self.old).waiting }
        ensures after { meaning self.new ≡ with_waiting (meaning self.old) (rest (meaning self.old).waiting) };

    // Sets now, or refuses with 15.
    fn turn(&mut self, tick: u32) -> Result<(), CalendarFault>
        ensures answer { result ≡ turn_answer (meaning self.old) tick }
        ensures after { meaning self.new ≡ turn_after (meaning self.old) tick };

    fn now(&self) -> u32
        ensures { result ≡ (meaning self.now).today };

    fn gates(&self) -> u16
        ensures { result ≡ (meaning self.now).gates };

    fn capacity(&self) -> u32
        ensures { result ≡ (meaning self.now).capacity };
}
