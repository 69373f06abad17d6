// The makes of calendars.
use std::fmt;

#[derive(Clone, Copy, Debug, PartialEq, Eq)]
pub enum Make {
    Heap,
    Wheel,
}

impl fmt::Display for Make {
    fn fmt<W: fmt::Write>(&self, f: &mut fmt::Formatter<W>) -> fmt::Result {
        f.write_str(match self {
            Make::Heap => "heap",
            Make::Wheel => "wheel",
        })
    }
}
