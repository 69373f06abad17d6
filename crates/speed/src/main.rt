// Runs made boards over both calendars and both families. With no argument it runs each for a
// few ticks and prints what changed; `speed all`, or `speed card wheel nine`, measures; and
// `speed board card` writes the board's netlist file to standard output.

#![tactic(auto)]

mod board;
mod choice;
mod drawing;
mod lap;
mod sheet;

use crate::board::{Board, WATCHED};
use crate::choice::{Choice, UnknownName};
use crate::lap::{count, measure};
use anyhow::anyhow;
use std::env;
use std::io::Write;

// A few ticks of a board, every net watched: the same line on every machine.
fn show(rt: &HostRuntime, choice: Choice) -> anyhow::Result<()> {
    let (ticks, changes) = count(rt, choice, choice.board.first_ticks())?;
    println!(rt; "{choice} {ticks} ticks {changes} changes")?;
    Ok(())
}

fn write_board(rt: &HostRuntime, board: Board) -> anyhow::Result<()> {
    let file = board.file(rt.alloc(), WATCHED)?;
    rt.stdout().write_all(file.as_slice())?;
    Ok(())
}

// An empty first word is none at all, and `board` has words of its own for a name that it doesn't know.
fn serve(rt: &HostRuntime, words: &[&str]) -> anyhow::Result<()> {
    match words {
        [] | ["", ..] => Choice::each(|choice| show(rt, choice)),
        ["all", ..] => Choice::each(|choice| measure(rt, choice)),
        ["board", rest @ ..] => match Board::try_from(rest.first().copied().unwrap_or("")) {
            Ok(board) => write_board(rt, board),
            Err(_) => Err(anyhow!("no board of that name")),
        },
        [board, queue, values, ..] => measure(rt, Choice::of_names(board, queue, values)?),
        _ => Err(UnknownName.into()),
    }
}

fn main(rt: HostRuntime) -> anyhow::Result<()> {
    let args = env::args(&rt)?.skip(1).collect::<Vec<String>>(rt.alloc())?;
    let words = args
        .iter()
        .map(|word| word.as_str())
        .collect::<Vec<&str>>(rt.alloc())?;
    serve(&rt, words.as_slice())
}
