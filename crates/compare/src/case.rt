// One case: a board, a calendar for it, and some steps.
use crate::make::Make;
use crate::tally::{Difference, Tally};
use crate::{files, play};
use cases::board::Board;
use cases::random::Random;
use cases::{board, spoiled};
use oracle::family::Family;
use std::alloc::{AllocError, Global};
use vectors::values::Values;

// Which steps a case takes.
#[derive(Clone, Copy, Debug, PartialEq, Eq)]
pub enum Steps {
    MadeUp,
    // those about the last tick that a run may reach
    AtTheEnd,
}

// What both sides start from.
#[derive(Drop)]
pub struct Case {
    pub seed: u64,
    pub board: Board,
    pub steps: Steps,
}

impl Case {
    pub fn values(&self) -> Values {
        if self.seed % 2 == 1 {
            Values::Pulls
        } else {
            Values::Nine
        }
    }

    // Kept as it is: the vectors share nothing with the oracle, and no crate below has both.
    pub fn family(&self) -> Family {
        match self.values() {
            Values::Nine => Family::Nine,
            Values::Pulls => Family::Pulls,
        }
    }

    pub fn make(&self) -> Make {
        if self.seed / 2 % 2 == 1 {
            Make::Wheel
        } else {
            Make::Heap
        }
    }

    // How many places a fit calendar needs: an entry for each tick of the delays, or 65 slots a gate.
    pub fn enough(&self) -> u32 {
        match self.make() {
            Make::Heap => self.board.delays,
            Make::Wheel => self.board.gates.saturating_mul(65),
        }
    }

    // How many it gets: just enough, one too few, or more.
    pub fn places(&self, random: &mut Random) -> u32 {
        let enough = self.enough();
        match random.below(12) {
            0 => enough.saturating_sub(1),
            1 | 2 | 3 => enough,
            _ => enough.saturating_add(random.below(match self.make() {
                Make::Heap => 100,
                Make::Wheel => 200,
            })),
        }
    }
}

// Makes the case of a seed and compares it, and a spoiled file of its board.
pub fn compare(heap: Global, tally: &mut Tally, seed: u64) -> Result<(), AllocError> {
    let mut random = Random::new(seed);
    let board = board::made(heap, &mut random)?;
    let bad = spoiled::spoiled(heap, &mut random, board.bytes.as_slice())?;
    if !files::agree(heap, tally, bad.as_slice())? {
        tally.differs(seed, Difference::File)?;
    }
    let case = Case {
        seed,
        board,
        steps: Steps::MadeUp,
    };
    play::play_case(heap, tally, &mut random, &case)
}

// The case about the last tick of a run, for the family and the calendar that its number chooses.
fn compare_end(heap: Global, tally: &mut Tally, seed: u64) -> Result<(), AllocError> {
    let mut random = Random::new(seed);
    let case = Case {
        seed,
        board: board::restless(heap)?,
        steps: Steps::AtTheEnd,
    };
    play::play_case(heap, tally, &mut random, &case)
}

// The cases about the last tick, for each family and each calendar.
pub fn compare_ends(heap: Global, tally: &mut Tally) -> Result<(), AllocError> {
    for seed in 0..4 {
        compare_end(heap, tally, seed)?;
    }
    Ok(())
}
