ghost use Rattle.std.specs.Prelude.{◌≡◌, ◌++◌, Some, codes, decimal};
ghost use Rattle.calendar.specs.Agenda.{fault_at, number, letter};

use crate::entry::{CalendarFault, Reason};
use std::fmt;

impl Reason {
    // The fault of a call that is refused at that tick.
    pub fn at(self, today: u32) -> CalendarFault
        ensures { result ≡ fault_at today self }
    {
        CalendarFault {
            reason: self,
            place: today,
        }
    }
}

impl CalendarFault {
    pub fn number(self) -> u8
        ensures { result ≡ number self.reason }
    {
        self.reason as u8
    }

    pub fn letter(self) -> u8
        ensures { result ≡ letter self.reason }
    {
        b'c'
    }
}

impl fmt::Display for CalendarFault {
    ghost output = { λ f. Some (decimal (number f.reason) ++ codes " c " ++ decimal f.place) };

    fn fmt<W: fmt::Write>(&self, f: &mut fmt::Formatter<W>) -> fmt::Result {
        let number = self.number();
        let place = self.place;
        write!(f, "{number} c {place}")
    }
}
