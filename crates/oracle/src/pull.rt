// Pull ranges: how strongly a net may be pulled up and down, each from a least to a most.
use crate::kind::Kind;

#[derive(Clone, Copy, Debug, PartialEq, Eq)]
pub struct Pull {
    pub up_low: u8,
    pub up_high: u8,
    pub down_low: u8,
    pub down_high: u8,
}

// A code, or digits, that no value has.
#[derive(Clone, Copy, Debug, PartialEq, Eq)]
pub struct NoSuchPull;

// What a value reads as.
#[derive(Clone, Copy, Debug, PartialEq, Eq)]
enum Reading {
    Zero,
    One,
    Unknown,
}

// The value whose name these four digits are: no low above its high.
impl TryFrom<[u8; 4]> for Pull {
    type Error = NoSuchPull;

    fn try_from(digits: [u8; 4]) -> Result<Pull, NoSuchPull> {
        let [up_low, up_high, down_low, down_high] = digits;
        if up_low <= up_high && up_high < 8 && down_low <= down_high && down_high < 8 {
            Ok(Pull::new(up_low, up_high, down_low, down_high))
        } else {
            Err(NoSuchPull)
        }
    }
}

// The value with this code: its digits, as an octal number.
impl TryFrom<u32> for Pull {
    type Error = NoSuchPull;

    fn try_from(code: u32) -> Result<Pull, NoSuchPull> {
        if code >= 4096 {
            return Err(NoSuchPull);
        }
        let digit = |n: u32| (n % 8) as u8;
        Pull::try_from([
            digit(code / 512),
            digit(code / 64),
            digit(code / 8),
            digit(code),
        ])
    }
}

impl From<Pull> for u32 {
    fn from(p: Pull) -> u32 {
        u32::from(p.up_low) * 512
            + u32::from(p.up_high) * 64
            + u32::from(p.down_low) * 8
            + u32::from(p.down_high)
    }
}

impl Pull {
    // Any strength both ways.
    const OPEN: Pull = Pull {
        up_low: 0,
        up_high: 7,
        down_low: 0,
        down_high: 7,
    };

    fn new(up_low: u8, up_high: u8, down_low: u8, down_high: u8) -> Pull {
        Pull {
            up_low,
            up_high,
            down_low,
            down_high,
        }
    }

    // Surely more up than down reads 1, surely more down than up reads 0.
    fn reading(self) -> Reading {
        if self.up_low > self.down_high {
            Reading::One
        } else if self.down_low > self.up_high {
            Reading::Zero
        } else {
            Reading::Unknown
        }
    }

    // An open switch pulls nowhere; one that may be open pulls with any strength up to the full one.
    fn switched(data: Reading, enable: Reading) -> Pull {
        match (enable, data) {
            (Reading::Zero, _) => Pull::new(0, 0, 0, 0),
            (Reading::One, d) => Pull::from(d),
            (Reading::Unknown, Reading::One) => Pull::new(0, 6, 0, 0),
            (Reading::Unknown, Reading::Zero) => Pull::new(0, 0, 0, 6),
            (Reading::Unknown, Reading::Unknown) => Pull::new(0, 6, 0, 6),
        }
    }
}

// A gate's output that reads so: full strength one way, or any strength both ways.
impl From<Reading> for Pull {
    fn from(r: Reading) -> Pull {
        match r {
            Reading::Zero => Pull::new(0, 0, 6, 6),
            Reading::One => Pull::new(6, 6, 0, 0),
            Reading::Unknown => Pull::new(0, 6, 0, 6),
        }
    }
}

impl Reading {
    fn not(self) -> Reading {
        match self {
            Reading::Zero => Reading::One,
            Reading::One => Reading::Zero,
            Reading::Unknown => Reading::Unknown,
        }
    }

    fn and(self, other: Reading) -> Reading {
        match (self, other) {
            (Reading::One, Reading::One) => Reading::One,
            (Reading::Zero, _) | (_, Reading::Zero) => Reading::Zero,
            _ => Reading::Unknown,
        }
    }

    fn or(self, other: Reading) -> Reading {
        self.not().and(other.not()).not()
    }

    fn xor(self, other: Reading) -> Reading {
        self.and(other.not()).or(self.not().and(other))
    }
}

// The value with this code, if one has it.
pub fn of_code(code: u32) -> Option<Pull> {
    Pull::try_from(code).ok()
}

pub fn code_of(p: Pull) -> u32 {
    u32::from(p)
}

// The value with this code; with a code that none has, the one that leaves all open.
fn value(code: u32) -> Pull {
    Pull::try_from(code).unwrap_or(Pull::OPEN)
}

// The operation of a gate of the kind with this number; of a number that no kind has, the value that leaves all open.
pub fn operate(kind: u8, a: u32, b: u32) -> u32 {
    Kind::try_from(kind).map_or(u32::from(Pull::OPEN), |kind| gate_result(kind, a, b))
}

// The operation of a gate of this kind.
pub(crate) fn gate_result(kind: Kind, a: u32, b: u32) -> u32 {
    let (x, y) = (value(a).reading(), value(b).reading());
    let out = match kind {
        Kind::Buffer => Pull::from(x),
        Kind::Not => Pull::from(x.not()),
        Kind::And => Pull::from(x.and(y)),
        Kind::Or => Pull::from(x.or(y)),
        Kind::Xor => Pull::from(x.xor(y)),
        Kind::Nand => Pull::from(x.and(y).not()),
        Kind::Nor => Pull::from(x.or(y).not()),
        Kind::Xnor => Pull::from(x.xor(y).not()),
        Kind::Tri => Pull::switched(x, y),
        Kind::PullUp => Pull::new(3, 3, 0, 0),
        Kind::PullDown => Pull::new(0, 0, 3, 3),
    };
    u32::from(out)
}

// Joined drivers pull as strongly as the stronger of them.
pub fn resolve(a: u32, b: u32) -> u32 {
    let (p, q) = (value(a), value(b));
    u32::from(Pull {
        up_low: p.up_low.max(q.up_low),
        up_high: p.up_high.max(q.up_high),
        down_low: p.down_low.max(q.down_low),
        down_high: p.down_high.max(q.down_high),
    })
}

// Nothing is left open where both ranges are single numbers.
pub fn is_definite(code: u32) -> bool {
    let p = value(code);
    p.up_low == p.up_high && p.down_low == p.down_high
}
