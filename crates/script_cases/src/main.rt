// Good and bad lines, and every refusal that a script can meet, with nine values over a heap: the script on standard input
// on a latch; then a gate that feeds itself, whose records fill the trace buffer; an unfit calendar; and buffers that are too small.

#![tactic(auto)]

use board_file::file::{board_bytes, board_or_empty};
use calendar::entry::Entry;
use heap::heap::Heap;
use nine_values::nine::NineValues;
use run::state::Run;
use script::fault::ScriptFault;
use script::line::answer_line;
use script_stream::stream::work_script;
use std::alloc::Global;
use std::io;
use std::io::{BufWriter, Read, Stdout};

const RING: &[u8] = b"wake 0 0\nadvance 5000\nadvance 3\nread 0\n";

const UNFIT: &[u8] = b"wake 0 0\ndrive 0 1\nadvance 1\nadvance 0\nread 0\nread 99\nhello\n";

const BUFFERS: [(usize, usize); 5] = [
    (39_999, 16_384),
    (40_000, 16_383),
    (40_000, 16_385),
    (0, 0),
    (40_000, 16_384),
];

fn main(rt: HostRuntime) -> io::Result<()> {
    let heap = rt.alloc();
    let mut entries = vec![in heap; Entry::BLANK; 4_096]?;
    let mut few = [Entry::BLANK; 1];
    let mut input = rt.stdin();
    let mut full = RING;
    let mut unfit = UNFIT;
    let mut sink = BufWriter::new(heap, rt.stdout())?;
    // each file is read when it is wanted, and not before
    let latch = board_bytes(&rt, heap, "board.nlb")?;
    serve(
        latch.as_slice(),
        entries.as_mut_slice(),
        &mut input,
        &mut sink,
        heap,
    )?;
    let ring = board_bytes(&rt, heap, "ring.nlb")?;
    serve(
        ring.as_slice(),
        entries.as_mut_slice(),
        &mut full,
        &mut sink,
        heap,
    )?;
    let again = board_bytes(&rt, heap, "board.nlb")?;
    serve(again.as_slice(), &mut few, &mut unfit, &mut sink, heap)?;
    let file = board_bytes(&rt, heap, "board.nlb")?;
    let last = board_or_empty(file.as_slice());
    let mut run: Run<NineValues, Heap> = Run::open(last, Heap::new(entries.as_mut_slice()));
    small_buffers(&rt, &mut run)
}

// Works a script on a new run of a board's file.
fn serve<R: Read>(
    file: &[u8],
    entries: &mut [Entry],
    script: &mut R,
    sink: &mut BufWriter<Stdout>,
    heap: Global,
) -> io::Result<()> {
    let board = board_or_empty(file);
    let mut run: Run<NineValues, Heap> = Run::open(board, Heap::new(entries));
    work_script(&mut run, script, sink, heap)
}

// The fault of each pair of buffers, at line 7; the line is good, so that nothing else is wrong.
fn small_buffers(rt: &HostRuntime, run: &mut Run<NineValues, Heap>) -> io::Result<()> {
    for (wide, long) in BUFFERS {
        try_buffers(rt, run, wide, long)?;
    }
    Ok(())
}

fn try_buffers(
    rt: &HostRuntime,
    run: &mut Run<NineValues, Heap>,
    wide: usize,
    long: usize,
) -> io::Result<()> {
    let heap = rt.alloc();
    let mut out = vec![in heap; 0; wide]?;
    let mut trace = vec![in heap; 0; long]?;
    let (count, fault) = answer_line(
        run,
        b"drive 0 1",
        7,
        out.as_mut_slice(),
        trace.as_mut_slice(),
    );
    match fault {
        None => println!(rt; "{wide} {long}: {count} bytes"),
        Some(f) => say_fault(rt, wide, long, count, f),
    }
}

fn say_fault(
    rt: &HostRuntime,
    wide: usize,
    long: usize,
    count: usize,
    fault: ScriptFault,
) -> io::Result<()> {
    println!(rt;
        "{wide} {long}: {count} bytes, {} {} {} {}",
        fault.line(),
        fault.number(),
        fault.letter(),
        fault.place()
    )
}
