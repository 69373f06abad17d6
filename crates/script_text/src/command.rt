// What a line of a script asks for.
#[derive(Clone, Copy, Debug, PartialEq, Eq)]
pub enum Command {
    // A gate and the code of its start level.
    Wake(u32, u16),
    // A port and the code of its value.
    Drive(u32, u16),
    // A number of ticks.
    Advance(u32),
    // A net.
    Read(u32),
}

// The first word of a line.
#[derive(Clone, Copy, Debug, PartialEq, Eq)]
pub enum Verb {
    Wake,
    Drive,
    Advance,
    Read,
}
