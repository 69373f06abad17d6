// Streams: an empty script, then standard input, in which lines are longer than every buffer and the last has no line feed;
// then two runs of a latch, of which the second starts at known levels: at first it only knows more, then it is driven another way.

#![tactic(auto)]

use board_file::file::{board_bytes, board_or_empty};
use calendar::entry::Entry;
use heap::heap::Heap;
use nine_values::nine::NineValues;
use run::state::Run;
use script_stream::stream::{work_both, work_script};
use std::alloc::Global;
use std::io;
use std::io::{BufWriter, Read, Stdout};
use wheel::wheel::Wheel;

const EMPTY: &[u8] = b"";

const RESET: &[u8] = b"drive 0 0\ndrive 1 1\nadvance 4\n";

const AWAKE: &[u8] = b"wake 0 1\nwake 1 0\ndrive 0 0\ndrive 1 1\nadvance 4";

const SET: &[u8] = b"drive 0 1\ndrive 1 0\nadvance 4";

fn main(rt: HostRuntime) -> io::Result<()> {
    let heap = rt.alloc();
    let mut sink = BufWriter::new(heap, rt.stdout())?;
    let mut none = EMPTY;
    let mut input = rt.stdin();
    alone(&rt, heap, &mut none, &mut sink)?;
    alone(&rt, heap, &mut input, &mut sink)?;
    pair(&rt, heap, AWAKE, &mut sink)?;
    pair(&rt, heap, SET, &mut sink)
}

// Works a script on a new run.
fn alone<R: Read>(
    rt: &HostRuntime,
    heap: Global,
    script: &mut R,
    sink: &mut BufWriter<Stdout>,
) -> io::Result<()> {
    let mut entries = vec![in heap; Entry::BLANK; 4_096]?;
    let bytes = board_bytes(rt, heap, "board.nlb")?;
    let board = board_or_empty(bytes.as_slice());
    let mut run: Run<NineValues, Heap> = Run::open(board, Heap::new(entries.as_mut_slice()));
    work_script(&mut run, script, sink, heap)
}

// Works a script on each of two runs of the latch, and says whether the second contradicts a definite level of the first.
fn pair(
    rt: &HostRuntime,
    heap: Global,
    other: &[u8],
    sink: &mut BufWriter<Stdout>,
) -> io::Result<()> {
    let mut entries = vec![in heap; Entry::BLANK; 4_096]?;
    let mut codes = vec![in heap; 0; 66_560]?;
    let bytes = board_bytes(rt, heap, "latch.nlb")?;
    let latch = board_or_empty(bytes.as_slice());
    let bytes = board_bytes(rt, heap, "latch.nlb")?;
    let again = board_or_empty(bytes.as_slice());
    let mut first: Run<NineValues, Heap> = Run::open(latch, Heap::new(entries.as_mut_slice()));
    let mut second: Run<NineValues, Wheel> = Run::open(again, Wheel::new(codes.as_mut_slice()));
    let mut script = RESET;
    let mut other_script = other;
    work_both(
        &mut first,
        &mut script,
        &mut second,
        &mut other_script,
        sink,
        heap,
    )
}
