// Every name of four digits and other lines, with pull ranges over a wheel: the script on standard input on a latch.

#![tactic(auto)]

use board_file::file::{board_bytes, board_or_empty};
use pull_ranges::pulls::PullRanges;
use run::state::Run;
use script_stream::stream::work_script;
use std::io;
use std::io::BufWriter;
use wheel::wheel::Wheel;

fn main(rt: HostRuntime) -> io::Result<()> {
    let heap = rt.alloc();
    let bytes = board_bytes(&rt, heap, "board.nlb")?;
    let board = board_or_empty(bytes.as_slice());
    let mut codes = vec![in heap; 0; 66_560]?;
    let mut input = rt.stdin();
    let mut sink = BufWriter::new(heap, rt.stdout())?;
    let mut run: Run<PullRanges, Wheel> = Run::open(board, Wheel::new(codes.as_mut_slice()));
    work_script(&mut run, &mut input, &mut sink, heap)
}
