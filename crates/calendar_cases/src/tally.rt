use crate::call::Answer;
use calendar::entry::Reason;
use std::fmt;

// How often each answer came, how many entries waited at once, and how often a calendar's answer differed.
#[derive(Clone, Copy, Default)]
pub struct Tally {
    done: u32,
    nothing: u32,
    numbers: u32,
    taken: u32,
    no_gate: u32,
    bad_tick: u32,
    twice: u32,
    full: u32,
    bad_turn: u32,
    pub most: usize,
    pub differ: usize,
}

impl Tally {
    pub fn count(&mut self, answer: Answer) {
        let counter = match answer {
            Answer::Done => &mut self.done,
            Answer::Nothing => &mut self.nothing,
            Answer::Number(_) => &mut self.numbers,
            Answer::Taken(_) => &mut self.taken,
            Answer::Refused(fault) => match fault.reason {
                Reason::NoGate => &mut self.no_gate,
                Reason::BadTick => &mut self.bad_tick,
                Reason::Twice => &mut self.twice,
                Reason::Full => &mut self.full,
                Reason::BadTurn => &mut self.bad_turn,
            },
        };
        *counter = counter.wrapping_add(1);
    }
}

impl fmt::Display for Tally {
    fn fmt<W: fmt::Write>(&self, f: &mut fmt::Formatter<W>) -> fmt::Result {
        let Tally {
            done,
            nothing,
            numbers,
            taken,
            no_gate,
            bad_tick,
            twice,
            full,
            bad_turn,
            most,
            differ,
        } = *self;
        writeln!(
            f,
            "differ {differ}, done {done}, nothing {nothing}, numbers {numbers}, taken {taken}"
        )?;
        write!(
            f,
            "  refused 11: {no_gate}, 12: {bad_tick}, 13: {twice}, 14: {full}, 15: {bad_turn}; most at once {most}"
        )
    }
}
