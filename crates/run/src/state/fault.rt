ghost use Rattle.std.specs.Prelude.{◌≡◌};
ghost use Rattle.run.specs.Faults.{number, letter, place};

use super::RunFault;

impl RunFault {
    // From 16 to 23: the layers below have the numbers below.
    pub fn number(self) -> u8
        ensures { result ≡ number self }
    {
        match self {
            RunFault::UnfitCalendar(_) => 16,
            RunFault::NoSuchInput(_) => 17,
            RunFault::NoSuchCode(_) => 18,
            RunFault::ZeroTicks(_) => 19,
            RunFault::TooManyTicks(_) => 20,
            RunFault::ShortBuffer(_) => 21,
            RunFault::NoSuchNet(_) => 22,
            RunFault::WrongTime(_) => 23,
        }
    }

    // The layer, as a letter.
    pub fn letter(self) -> u8
        ensures { result ≡ letter self }
    {
        b'r'
    }

    // The completed ticks.
    pub fn place(self) -> u32
        ensures { result ≡ place self }
    {
        match self {
            RunFault::UnfitCalendar(t)
            | RunFault::NoSuchInput(t)
            | RunFault::NoSuchCode(t)
            | RunFault::ZeroTicks(t)
            | RunFault::TooManyTicks(t)
            | RunFault::ShortBuffer(t)
            | RunFault::NoSuchNet(t)
            | RunFault::WrongTime(t) => t,
        }
    }
}
