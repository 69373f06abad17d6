ghost use Rattle.std.specs.Prelude.{◌≡◌, Some};
ghost use Rattle.netlist.specs.Faults.{fault_number, fault_layer, fault_place, fault_text};

use std::fmt;

// Why a file is refused, with the place that the refusal names.
#[derive(Clone, Copy, Debug, PartialEq, Eq)]
pub enum NetlistFault {
    Short(usize),
    Mark(usize),
    Version(usize),
    Count(usize),
    Length(usize),
    Kind(usize),
    Net(usize),
    Delay(usize),
    Watch(usize),
    Undriven(usize),
}

impl NetlistFault {
    // The refusal's number, 1 to 10.
    pub fn number(self) -> u8
        ensures { result ≡ fault_number self }
    {
        match self {
            NetlistFault::Short(_) => 1,
            NetlistFault::Mark(_) => 2,
            NetlistFault::Version(_) => 3,
            NetlistFault::Count(_) => 4,
            NetlistFault::Length(_) => 5,
            NetlistFault::Kind(_) => 6,
            NetlistFault::Net(_) => 7,
            NetlistFault::Delay(_) => 8,
            NetlistFault::Watch(_) => 9,
            NetlistFault::Undriven(_) => 10,
        }
    }

    // The letter of the layer that refuses.
    pub fn layer(self) -> char
        ensures { result ≡ fault_layer self }
    {
        'n'
    }

    // An offset into the file, the file's length, or a net.
    pub fn place(self) -> usize
        ensures { result ≡ fault_place self }
    {
        match self {
            NetlistFault::Short(place)
            | NetlistFault::Mark(place)
            | NetlistFault::Version(place)
            | NetlistFault::Count(place)
            | NetlistFault::Length(place)
            | NetlistFault::Kind(place)
            | NetlistFault::Net(place)
            | NetlistFault::Delay(place)
            | NetlistFault::Watch(place)
            | NetlistFault::Undriven(place) => place,
        }
    }
}

impl fmt::Display for NetlistFault {
    ghost output = { λ fault. Some (fault_text fault) };

    fn fmt<W: fmt::Write>(&self, f: &mut fmt::Formatter<W>) -> fmt::Result {
        write!(f, "{} {} {}", self.number(), self.layer(), self.place())
    }
}
