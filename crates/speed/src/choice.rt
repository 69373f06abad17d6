use crate::board::Board;
use std::error::Error;
use std::fmt;

// The calendars that a board can be run on.
#[derive(Clone, Copy)]
pub enum Queue {
    Heap,
    Wheel,
}

// The families that a board can be run over.
#[derive(Clone, Copy)]
pub enum Values {
    Nine,
    Pull,
}

// What is run: a board, on a calendar, over a family.
#[derive(Clone, Copy)]
pub struct Choice {
    pub board: Board,
    pub queue: Queue,
    pub values: Values,
}

// A word that names no board, no calendar or no family.
#[derive(Clone, Copy, Debug)]
pub struct UnknownName;

impl fmt::Display for UnknownName {
    fn fmt<W: fmt::Write>(&self, f: &mut fmt::Formatter<W>) -> fmt::Result {
        f.write_str(
            "say: all, or a board (card rings mixed quiet still), heap or wheel, nine or pull",
        )
    }
}

impl Error for UnknownName {}

impl TryFrom<&str> for Queue {
    type Error = UnknownName;

    fn try_from(name: &str) -> Result<Queue, UnknownName> {
        match name {
            "heap" => Ok(Queue::Heap),
            "wheel" => Ok(Queue::Wheel),
            _ => Err(UnknownName),
        }
    }
}

impl TryFrom<&str> for Values {
    type Error = UnknownName;

    fn try_from(name: &str) -> Result<Values, UnknownName> {
        match name {
            "nine" => Ok(Values::Nine),
            "pull" => Ok(Values::Pull),
            _ => Err(UnknownName),
        }
    }
}

impl fmt::Display for Queue {
    fn fmt<W: fmt::Write>(&self, f: &mut fmt::Formatter<W>) -> fmt::Result {
        f.write_str(match self {
            Queue::Heap => "heap",
            Queue::Wheel => "wheel",
        })
    }
}

impl fmt::Display for Values {
    fn fmt<W: fmt::Write>(&self, f: &mut fmt::Formatter<W>) -> fmt::Result {
        f.write_str(match self {
            Values::Nine => "nine",
            Values::Pull => "pull",
        })
    }
}

impl fmt::Display for Choice {
    fn fmt<W: fmt::Write>(&self, f: &mut fmt::Formatter<W>) -> fmt::Result {
        let Choice {
            board,
            queue,
            values,
        } = self;
        write!(f, "{board} {queue} {values}")
    }
}

impl Choice {
    pub fn of_names(board: &str, queue: &str, values: &str) -> Result<Choice, UnknownName> {
        Ok(Choice {
            board: Board::try_from(board)?,
            queue: Queue::try_from(queue)?,
            values: Values::try_from(values)?,
        })
    }

    // Visits every board on every calendar over every family.
    pub(crate) fn each<V: FnMut(Choice) -> anyhow::Result<()>>(mut visit: V) -> anyhow::Result<()>
        requires { V.IsAlwaysCallable visit }
    {
        for board in Board::ALL {
            for queue in [Queue::Heap, Queue::Wheel] {
                for values in [Values::Nine, Values::Pull] {
                    visit(Choice {
                        board,
                        queue,
                        values,
                    })?;
                }
            }
        }
        Ok(())
    }
}
