// The bench: works the script on standard input on the board in board.nlb, with nine values and a heap.
// Given the name of a second script it works that one too, on a second run of the board over a wheel,
// and says whether the second run contradicts a definite level of the first.

#![tactic(auto)]

use board_file::file::{board_bytes, board_of, board_or_empty};
use board_file::lines::refusal_line;
use calendar::entry::Entry;
use heap::heap::Heap;
use netlist::place::Netlist;
use nine_values::nine::NineValues;
use run::state::Run;
use script_stream::stream::{work_both, work_script};
use std::fs::File;
use std::io::BufWriter;
use std::{env, io};
use wheel::wheel::Wheel;

fn main(rt: HostRuntime) -> io::Result<()> {
    let heap = rt.alloc();
    let bytes = board_bytes(&rt, heap, "board.nlb")?;
    match board_of(bytes.as_slice()) {
        Err(fault) => {
            let line = refusal_line(heap, fault)?;
            println!(rt; "{line}")
        }
        Ok(board) => match env::args(&rt)?.nth(1) {
            None => work(&rt, board),
            Some(name) => work_two(&rt, board, bytes.as_slice(), name.as_str()),
        },
    }
}

// Not in the frame of `main`, which would have room for the runs of both functions at once.
#[inline(never)]
fn work(rt: &HostRuntime, board: Netlist) -> io::Result<()> {
    let heap = rt.alloc();
    let mut entries = vec![in heap; Entry::BLANK; 65_536]?;
    let mut input = rt.stdin();
    let mut sink = BufWriter::new(heap, rt.stdout())?;
    let mut run: Run<NineValues, Heap> = Run::open(board, Heap::new(entries.as_mut_slice()));
    work_script(&mut run, &mut input, &mut sink, heap)
}

// Works the script on standard input and the one in a file, on two runs of one board, and says whether the second run contradicts
// a definite level of the first.
#[inline(never)]
fn work_two(rt: &HostRuntime, board: Netlist, bytes: &[u8], name: &str) -> io::Result<()> {
    let heap = rt.alloc();
    let again = board_or_empty(bytes);
    let mut entries = vec![in heap; Entry::BLANK; 65_536]?;
    let mut codes = vec![in heap; 0; 66_560]?;
    let mut input = rt.stdin();
    let mut file = File::open(rt, name)?;
    let mut sink = BufWriter::new(heap, rt.stdout())?;
    let mut first: Run<NineValues, Heap> = Run::open(board, Heap::new(entries.as_mut_slice()));
    let mut second: Run<NineValues, Wheel> = Run::open(again, Wheel::new(codes.as_mut_slice()));
    work_both(
        &mut first,
        &mut input,
        &mut second,
        &mut file,
        &mut sink,
        heap,
    )
}
