// The calls of the cases, as tables.

#[derive(Clone, Copy)]
pub enum Level {
    Low,
    High,
    // a code that no value has
    Wrong,
}

// A call of a run. An advance has a number of ticks and the length of the buffer.
#[derive(Clone, Copy)]
pub enum Step {
    Wake(u16, Level),
    Drive(u16, Level),
    Advance(u32, usize),
    Read(u16),
}

// A pulse on the bus, and then the pull-up.
pub const PULSE: &[Step] = &[
    Step::Wake(1, Level::Low),
    Step::Drive(0, Level::High),
    Step::Advance(6, 240),
    Step::Drive(0, Level::Low),
    Step::Advance(4, 240),
    Step::Read(0),
    Step::Read(1),
    Step::Read(2),
    Step::Read(3),
    Step::Advance(60, 240),
    Step::Read(3),
    Step::Drive(0, Level::High),
    Step::Advance(9, 240),
];

// Every refusal on the inverter, and the order of the checks.
pub const REFUSALS: &[Step] = &[
    Step::Wake(1, Level::High),
    Step::Drive(1, Level::High),
    Step::Wake(0, Level::Wrong),
    Step::Drive(0, Level::Wrong),
    Step::Wake(1, Level::Wrong),
    Step::Drive(1, Level::Wrong),
    Step::Advance(0, 15),
    Step::Advance(16_777_217, 15),
    Step::Advance(1, 15),
    Step::Read(2),
    Step::Read(1),
    Step::Advance(1, 16),
    Step::Wake(0, Level::Low),
    Step::Wake(0, Level::Wrong),
    Step::Advance(16_777_216, 16),
    Step::Drive(0, Level::Low),
    Step::Read(0),
    Step::Read(2),
];

// The last tick of a run.
pub const LAST: &[Step] = &[
    Step::Advance(16_777_215, 8),
    Step::Advance(2, 8),
    Step::Advance(1, 8),
    Step::Advance(1, 8),
    Step::Read(0),
];

// What two runs of the inverter do, side by side. The first does not know its port until the end.
pub const PAIRS: &[(Step, Step)] = &[
    (Step::Wake(0, Level::Low), Step::Wake(0, Level::Low)),
    (Step::Read(0), Step::Drive(0, Level::High)),
    (Step::Advance(1, 64), Step::Read(0)),
    (Step::Read(1), Step::Advance(1, 64)),
    (Step::Advance(3, 64), Step::Advance(3, 64)),
    (Step::Drive(0, Level::Low), Step::Read(1)),
    (Step::Advance(3, 64), Step::Advance(3, 64)),
];
