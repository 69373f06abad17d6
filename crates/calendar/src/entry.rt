// A code that waits for a tick and a gate; in order of tick, then gate, then code.
#[derive(Clone, Copy, Debug, PartialEq, Eq, PartialOrd, Ord)]
pub struct Entry {
    pub tick: u32,
    pub gate: u16,
    pub code: u16,
}

impl Entry {
    // What a buffer of entries begins with.
    pub const BLANK: Entry = Entry {
        tick: 0,
        gate: 0,
        code: 0,
    };
}

// Why a calendar refuses, by the number of the refusal, in the order in which it looks.
#[derive(Clone, Copy, Debug, PartialEq, Eq)]
pub enum Reason {
    NoGate = 11,
    BadTick = 12,
    Twice = 13,
    Full = 14,
    BadTurn = 15,
}

// The place is now, as it stood at the refused call.
#[derive(Clone, Copy, Debug, PartialEq, Eq)]
pub struct CalendarFault {
    pub reason: Reason,
    pub place: u32,
}
