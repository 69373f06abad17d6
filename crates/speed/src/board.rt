use crate::choice::UnknownName;
use crate::drawing::{draw_card, draw_mixed, draw_quiet, draw_rings, draw_still};
use crate::sheet::Sheet;
use std::alloc::{AllocError, Global};
use std::fmt;

#[derive(Clone, Copy)]
pub enum Board {
    Card,
    Rings,
    Mixed,
    Quiet,
    Still,
}

// More than any board has.
pub const EVERY_NET: u16 = 1024;

// The nets that a measured run watches, from net 0 on.
pub const WATCHED: u16 = 16;

impl TryFrom<&str> for Board {
    type Error = UnknownName;

    fn try_from(name: &str) -> Result<Board, UnknownName> {
        match name {
            "card" => Ok(Board::Card),
            "rings" => Ok(Board::Rings),
            "mixed" => Ok(Board::Mixed),
            "quiet" => Ok(Board::Quiet),
            "still" => Ok(Board::Still),
            _ => Err(UnknownName),
        }
    }
}

impl fmt::Display for Board {
    fn fmt<W: fmt::Write>(&self, f: &mut fmt::Formatter<W>) -> fmt::Result {
        f.write_str(match self {
            Board::Card => "card",
            Board::Rings => "rings",
            Board::Mixed => "mixed",
            Board::Quiet => "quiet",
            Board::Still => "still",
        })
    }
}

impl Board {
    pub const ALL: [Board; 5] = [
        Board::Card,
        Board::Rings,
        Board::Mixed,
        Board::Quiet,
        Board::Still,
    ];

    // The ticks of a measured run.
    pub fn ticks(self) -> u32 {
        match self {
            Board::Card => 500_000,
            Board::Rings => 100_000,
            Board::Mixed => 250_000,
            Board::Quiet | Board::Still => 16_777_216,
        }
    }

    // The ticks of a run that only shows that the board works.
    pub fn first_ticks(self) -> u32 {
        match self {
            Board::Card => 640,
            Board::Rings => 64,
            Board::Mixed => 256,
            Board::Quiet => 512,
            Board::Still => 1_100,
        }
    }

    pub fn file(self, heap: Global, watched: u16) -> Result<Vec<u8>, AllocError> {
        let mut sheet = Sheet::new(heap);
        match self {
            Board::Card => draw_card(&mut sheet)?,
            Board::Rings => draw_rings(&mut sheet)?,
            Board::Mixed => draw_mixed(&mut sheet)?,
            Board::Quiet => draw_quiet(&mut sheet)?,
            Board::Still => draw_still(&mut sheet)?,
        }
        sheet.file(heap, watched)
    }
}
