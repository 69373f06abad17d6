ghost use Rattle.std.specs.Prelude.{◌≡◌};
ghost use Rattle.netlist.specs.Kinds.{kind_number, reads_a, reads_b, Decodes};

// The kinds of gates, in the order of their numbers in a file, 1 to 11.
#[derive(Clone, Copy, Debug, PartialEq, Eq)]
pub enum GateKind {
    Buffer = 1,
    Not,
    And,
    Or,
    Xor,
    Nand,
    Nor,
    Xnor,
    Tri,
    PullUp,
    PullDown,
}

// A number that no kind has.
#[derive(Clone, Copy, Debug, PartialEq, Eq)]
pub struct NoSuchKind;

impl TryFrom<u8> for GateKind {
    type Error = NoSuchKind;

    ghost try_from_gives = { Decodes };

    fn try_from(number: u8) -> Result<Self, NoSuchKind> {
        match number {
            1 => Ok(GateKind::Buffer),
            2 => Ok(GateKind::Not),
            3 => Ok(GateKind::And),
            4 => Ok(GateKind::Or),
            5 => Ok(GateKind::Xor),
            6 => Ok(GateKind::Nand),
            7 => Ok(GateKind::Nor),
            8 => Ok(GateKind::Xnor),
            9 => Ok(GateKind::Tri),
            10 => Ok(GateKind::PullUp),
            11 => Ok(GateKind::PullDown),
            _ => Err(NoSuchKind),
        }
    }
}

impl From<GateKind> for u8 {
    ghost from_gives = { λ kind number. number ≡ kind_number kind };

    fn from(kind: GateKind) -> u8 {
        kind as u8
    }
}

impl GateKind {
    // Whether the kind uses input a: all but the pulls do.
    pub fn reads_a(self) -> bool
        ensures { result ≡ reads_a self }
    {
        !matches!(self, GateKind::PullUp | GateKind::PullDown)
    }

    // Whether the kind uses input b: all but the pulls, the buffer and NOT do.
    pub fn reads_b(self) -> bool
        ensures { result ≡ reads_b self }
    {
        self.reads_a() && !matches!(self, GateKind::Buffer | GateKind::Not)
    }
}

// One gate of a netlist, as its record has it.
#[derive(Clone, Copy, Debug, PartialEq, Eq)]
pub struct Gate {
    pub kind: GateKind,
    pub a: u16,
    pub b: u16,
    pub out: u16,
    pub delay: u16,
}

impl Gate {
    // What fills the rest of a table.
    pub const BLANK: Gate = Gate {
        kind: GateKind::Buffer,
        a: 0,
        b: 0,
        out: 0,
        delay: 0,
    };
}

// The four counts of a file's head.
#[derive(Clone, Copy, Debug, PartialEq, Eq)]
pub struct Head {
    pub nets: u16,
    pub ports: u16,
    pub gates: u16,
    pub watches: u16,
}
