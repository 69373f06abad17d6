// What was seen.
use oracle::refusal::Refusal;
use std::alloc::{AllocError, Global};
use std::fmt;

// Where a case differs.
#[derive(Clone, Copy, Debug, PartialEq, Eq)]
pub enum Difference {
    File,
    Step(u32),
    End,
}

// Each is told as a step, the file as the first and the end as the last that there can be.
// Kept as it is: outputs stay, and a file was told as step 0 and an end as the last step.
impl fmt::Display for Difference {
    fn fmt<W: fmt::Write>(&self, f: &mut fmt::Formatter<W>) -> fmt::Result {
        let number = match self {
            Difference::File => 0,
            Difference::Step(number) => *number,
            Difference::End => u32::MAX,
        };
        write!(f, "step {number}")
    }
}

#[derive(Drop)]
pub struct Tally {
    pub cases: u64,
    pub ticks: u64,
    pub records: u64,
    pub lines: u64,
    // How often each number came, from 1 on.
    // Kept as it is: numbers that never came are printed too, so a map would be begun with them all.
    pub refusals: [u64; 26],
    // the cases that differ, by their seed, each with the first that does
    pub differing: Vec<(u64, Difference)>,
}

impl Tally {
    pub fn new(heap: Global) -> Tally {
        Tally {
            cases: 0,
            ticks: 0,
            records: 0,
            lines: 0,
            refusals: [0; 26],
            differing: Vec::new(heap),
        }
    }

    pub fn refused(&mut self, refusal: Refusal) {
        if let Some(count) = self.refusals.get_mut(refusal.number() as usize) {
            *count = count.saturating_add(1);
        }
    }

    // Notes a case that differs, once.
    pub fn differs(&mut self, seed: u64, what: Difference) -> Result<(), AllocError> {
        if self.differing.last().is_none_or(|(last, _)| *last != seed) {
            self.differing.push((seed, what))?;
        }
        Ok(())
    }
}
