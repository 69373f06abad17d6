// The bench's answer for files that it accepts and refuses, among them one that is missing and one that is too long.

#![tactic(auto)]

use board_file::file::{board_bytes, board_of};
use board_file::lines::{inventory_line, refusal_line};
use std::io;

const NAMES: [&str; 6] = [
    "missing.nlb",
    "empty.nlb",
    "inverter.nlb",
    "wrong_kind.nlb",
    "undriven.nlb",
    "too_long.nlb",
];

fn answer(rt: &HostRuntime, name: &str) -> io::Result<()> {
    let heap = rt.alloc();
    let bytes = board_bytes(rt, heap, name)?;
    let line = match board_of(bytes.as_slice()) {
        Ok(board) => inventory_line(heap, board.inventory())?,
        Err(fault) => refusal_line(heap, fault)?,
    };
    println!(rt; "{name}: {line}")
}

fn main(rt: HostRuntime) -> io::Result<()> {
    for name in NAMES {
        answer(&rt, name)?;
    }
    Ok(())
}
