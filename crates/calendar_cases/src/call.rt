use calendar::calendar::Calendar;
use calendar::entry::{CalendarFault, Entry};
use std::fmt;

// A call of a calendar, as a value. A put has a tick, a gate and a code.
#[derive(Clone, Copy)]
pub enum Call {
    Put(u32, u16, u16),
    Next,
    Take,
    Turn(u32),
    Now,
    Gates,
    Capacity,
}

// What a calendar answers.
#[derive(Clone, Copy, PartialEq)]
pub enum Answer {
    Done,
    Nothing,
    Number(u32),
    Taken(Entry),
    Refused(CalendarFault),
}

impl From<Result<(), CalendarFault>> for Answer {
    fn from(answer: Result<(), CalendarFault>) -> Answer {
        match answer {
            Ok(_) => Answer::Done,
            Err(fault) => Answer::Refused(fault),
        }
    }
}

impl From<Option<u32>> for Answer {
    fn from(tick: Option<u32>) -> Answer {
        tick.map_or(Answer::Nothing, Answer::Number)
    }
}

impl From<Option<Entry>> for Answer {
    fn from(entry: Option<Entry>) -> Answer {
        entry.map_or(Answer::Nothing, Answer::Taken)
    }
}

impl fmt::Display for Answer {
    fn fmt<W: fmt::Write>(&self, f: &mut fmt::Formatter<W>) -> fmt::Result {
        match self {
            Answer::Done => f.write_str("done"),
            Answer::Nothing => f.write_str("nothing"),
            Answer::Number(n) => write!(f, "{n}"),
            Answer::Taken(Entry { tick, gate, code }) => write!(f, "{tick} {gate} {code}"),
            Answer::Refused(fault) => {
                let (number, letter) = (fault.number(), char::from(fault.letter()));
                write!(f, "no {number} {letter} {}", fault.place)
            }
        }
    }
}

pub fn ask<C: Calendar>(calendar: &mut C, call: Call) -> Answer {
    match call {
        Call::Put(tick, gate, code) => calendar.put(tick, gate, code).into(),
        Call::Next => calendar.next().into(),
        Call::Take => calendar.take().into(),
        Call::Turn(tick) => calendar.turn(tick).into(),
        Call::Now => Answer::Number(calendar.now()),
        Call::Gates => Answer::Number(u32::from(calendar.gates())),
        Call::Capacity => Answer::Number(calendar.capacity()),
    }
}
