// The kinds of gates.
use crate::refusal::Refusal;

// In the order of their numbers in a file, which begin at 1.
#[derive(Clone, Copy, Debug, PartialEq, Eq)]
pub enum Kind {
    Buffer = 1,
    Not,
    And,
    Or,
    Xor,
    Nand,
    Nor,
    Xnor,
    Tri,
    PullUp,
    PullDown,
}

impl TryFrom<u8> for Kind {
    type Error = Refusal;

    fn try_from(number: u8) -> Result<Kind, Refusal> {
        match number {
            1 => Ok(Kind::Buffer),
            2 => Ok(Kind::Not),
            3 => Ok(Kind::And),
            4 => Ok(Kind::Or),
            5 => Ok(Kind::Xor),
            6 => Ok(Kind::Nand),
            7 => Ok(Kind::Nor),
            8 => Ok(Kind::Xnor),
            9 => Ok(Kind::Tri),
            10 => Ok(Kind::PullUp),
            11 => Ok(Kind::PullDown),
            _ => Err(Refusal::Kind),
        }
    }
}

impl From<Kind> for u8 {
    fn from(kind: Kind) -> u8 {
        kind as u8
    }
}

impl Kind {
    // Pulls use no input.
    pub fn reads_a(self) -> bool {
        !matches!(self, Kind::PullUp | Kind::PullDown)
    }

    // A buffer and a NOT use only the first.
    pub fn reads_b(self) -> bool {
        self.reads_a() && !matches!(self, Kind::Buffer | Kind::Not)
    }
}
