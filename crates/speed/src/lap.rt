use crate::board::{EVERY_NET, WATCHED};
use crate::choice::{Choice, Queue, Values};
use anyhow::anyhow;
use board_file::file::board_of;
use calendar::calendar::Calendar;
use calendar::entry::Entry;
use heap::heap::Heap;
use logic::family::Family;
use netlist::gate::GateKind;
use netlist::place::Netlist;
use nine_values::nine::NineValues;
use pull_ranges::pulls::PullRanges;
use run::state::Run;
use std::alloc::{AllocError, Global};
use std::time::Instant;
use wheel::wheel::Wheel;

const ENTRIES: usize = 65_536;

const SLOTS: usize = 66_560;

const TRACE: usize = 65_536;

const STRIDE: u32 = 2_097_152;

// What one run came to: its ticks, the records that it wrote, and the microseconds that it took.
#[derive(Clone, Copy)]
struct Lap {
    ticks: u32,
    records: u64,
    micros: u128,
}

impl Lap {
    fn of(micros: u128, (ticks, records): (u32, u64)) -> Lap {
        Lap {
            ticks,
            records,
            micros,
        }
    }
}

// Advances until as many ticks are complete, and says on long runs how far it is.
fn advance_to<F: Family, C: Calendar>(
    rt: &HostRuntime,
    run: &mut Run<F, C>,
    ticks: u32,
    trace: &mut [u8],
) -> anyhow::Result<()> {
    let mut left = ticks;
    while left > 0 {
        let (done, _) = run
            .advance(left.min(STRIDE), trace)
            .map_err(|_| anyhow!("the run refuses to advance"))?;
        if done == 0 {
            return Err(anyhow!("the trace has no room"));
        }
        left = left.saturating_sub(done);
        if left % STRIDE == 0 && ticks > STRIDE {
            eprintln!(rt; "  {left} ticks left")?;
        }
    }
    Ok(())
}

// Every inverter with an odd number starts high and every other gate low, so that a ring of five
// has one change going round.
fn starts(heap: Global, net: &Netlist) -> Result<Vec<bool>, AllocError> {
    (0..1024)
        .zip(&net.gates[..net.head.gates as usize])
        .map(|(g, gate)| gate.kind == GateKind::Not && g % 2 == 1)
        .collect(heap)
}

// Wakes each gate at its strong level: what inverts a pull to the other one.
fn wake_all<F: Family, C: Calendar>(run: &mut Run<F, C>, high: &[bool]) {
    for (gate, high) in (0..1024).zip(high) {
        let pull = if *high { F::pull_down() } else { F::pull_up() };
        let _ = run.wake(gate, F::code(F::not(pull)));
    }
}

// Wakes every gate, advances, and says how many microseconds the advance took.
fn timed<F: Family, C: Calendar>(
    rt: &HostRuntime,
    run: &mut Run<F, C>,
    high: &[bool],
    ticks: u32,
) -> anyhow::Result<u128> {
    wake_all(run, high);
    let mut trace = vec![in rt.alloc(); 0; TRACE]?;
    let start = Instant::now(rt)?;
    advance_to(rt, run, ticks, trace.as_mut_slice())?;
    Ok(start.elapsed(rt)?.as_micros())
}

fn on_heap(
    rt: &HostRuntime,
    net: Netlist,
    values: Values,
    high: &[bool],
    ticks: u32,
) -> anyhow::Result<Lap> {
    let mut entries = vec![in rt.alloc(); Entry::BLANK; ENTRIES]?;
    let calendar = Heap::new(entries.as_mut_slice());
    match values {
        Values::Nine => {
            let mut run: Run<NineValues, Heap> = Run::open(net, calendar);
            Ok(Lap::of(timed(rt, &mut run, high, ticks)?, run.finish()))
        }
        Values::Pull => {
            let mut run: Run<PullRanges, Heap> = Run::open(net, calendar);
            Ok(Lap::of(timed(rt, &mut run, high, ticks)?, run.finish()))
        }
    }
}

fn on_wheel(
    rt: &HostRuntime,
    net: Netlist,
    values: Values,
    high: &[bool],
    ticks: u32,
) -> anyhow::Result<Lap> {
    let mut slots = vec![in rt.alloc(); 0; SLOTS]?;
    let calendar = Wheel::new(slots.as_mut_slice());
    match values {
        Values::Nine => {
            let mut run: Run<NineValues, Wheel> = Run::open(net, calendar);
            Ok(Lap::of(timed(rt, &mut run, high, ticks)?, run.finish()))
        }
        Values::Pull => {
            let mut run: Run<PullRanges, Wheel> = Run::open(net, calendar);
            Ok(Lap::of(timed(rt, &mut run, high, ticks)?, run.finish()))
        }
    }
}

// Only the calendar that is run gets its buffer.
fn run_choice(rt: &HostRuntime, choice: Choice, file: &[u8], ticks: u32) -> anyhow::Result<Lap> {
    let net = board_of(file).map_err(|_| anyhow!("the board is refused"))?;
    let high = starts(rt.alloc(), &net)?;
    match choice.queue {
        Queue::Heap => on_heap(rt, net, choice.values, high.as_slice(), ticks),
        Queue::Wheel => on_wheel(rt, net, choice.values, high.as_slice(), ticks),
    }
}

// The ticks completed and the changes of all nets.
pub fn count(rt: &HostRuntime, choice: Choice, ticks: u32) -> anyhow::Result<(u32, u64)> {
    let file = choice.board.file(rt.alloc(), EVERY_NET)?;
    let lap = run_choice(rt, choice, file.as_slice(), ticks)?;
    Ok((lap.ticks, lap.records))
}

// Counts the changes of all nets in one run, and times another that watches few.
pub fn measure(rt: &HostRuntime, choice: Choice) -> anyhow::Result<()> {
    let board = choice.board;
    let (ticks, changes) = count(rt, choice, board.ticks())?;
    let file = board.file(rt.alloc(), WATCHED)?;
    let lap = run_choice(rt, choice, file.as_slice(), ticks)?;
    let micros = lap.micros;
    let rate = changes as u128 * 1_000_000 / micros.max(1);
    println!(rt; "{choice} {ticks} ticks {changes} changes {micros} us {rate} changes/s")?;
    Ok(())
}
