// Why a file, a call or a line is refused.
use std::alloc::{AllocError, AllocFailed};
use std::error::Error;
use std::fmt;

// In the order of their numbers. 11 to 15 are a calendar's, which the simulator does not have.
#[derive(Clone, Copy, Debug, PartialEq, Eq)]
pub enum Refusal {
    Short = 1,
    Mark,
    Version,
    Count,
    Length,
    Kind,
    Net,
    Delay,
    Watch,
    Undriven,
    UnfitCalendar = 16,
    NoSuchInput,
    NoValue,
    NoTicks,
    PastTheLast,
    SmallTrace,
    NoSuchNet,
    Untimely,
    WrongBuffers,
    NoCommand,
}

impl Refusal {
    pub fn number(self) -> u32 {
        self as u32
    }

    // The layer that refuses: the netlist, the run or the script.
    pub fn layer(self) -> char {
        match self.number() {
            0..=10 => 'n',
            11..=23 => 'r',
            _ => 's',
        }
    }

    pub fn at(self, place: u64) -> Fault {
        Fault {
            refusal: self,
            place,
        }
    }

    // Refuses what does not hold.
    pub fn unless(self, holds: bool, place: u64) -> Result<(), Fault> {
        if holds { Ok(()) } else { Err(self.at(place)) }
    }
}

// A refusal with its place: an offset, the length or a net of a file, the completed ticks of a
// run, or a line of a script.
#[derive(Clone, Copy, Debug, PartialEq, Eq)]
pub struct Fault {
    pub refusal: Refusal,
    pub place: u64,
}

impl fmt::Display for Fault {
    fn fmt<W: fmt::Write>(&self, f: &mut fmt::Formatter<W>) -> fmt::Result {
        let (number, layer) = (self.refusal.number(), self.refusal.layer());
        write!(f, "{number} {layer} {}", self.place)
    }
}

impl Error for Fault {}

// What keeps the simulator from an answer.
#[derive(Clone, Copy, Debug, PartialEq, Eq)]
pub enum Failure {
    Refused(Fault),
    OutOfMemory,
}

// The answer or the fault; to be out of memory is neither.
pub fn answered<T: Drop>(outcome: Result<T, Failure>) -> Result<Result<T, Fault>, AllocError> {
    match outcome {
        Ok(answer) => Ok(Ok(answer)),
        Err(Failure::Refused(fault)) => Ok(Err(fault)),
        Err(Failure::OutOfMemory) => Err(AllocError),
    }
}

impl From<Fault> for Failure {
    fn from(fault: Fault) -> Failure {
        Failure::Refused(fault)
    }
}

impl From<AllocError> for Failure {
    fn from(_error: AllocError) -> Failure {
        Failure::OutOfMemory
    }
}

impl<T: Drop> From<AllocFailed<T>> for Failure {
    fn from(_error: AllocFailed<T>) -> Failure {
        Failure::OutOfMemory
    }
}
