// Takes both sides through the steps of a case.
use crate::case::{Case, Steps};
use crate::make::Make;
use crate::tally::{Difference, Tally};
use crate::{lines, told};
use board_file::file::board_of;
use calendar::calendar::Calendar;
use calendar::entry::Entry;
use cases::random::Random;
use cases::step;
use cases::step::Step;
use heap::heap::Heap;
use logic::named::Named;
use netlist::place::Netlist;
use nine_values::nine::NineValues;
use oracle::refusal::answered;
use oracle::simulator::Simulator;
use oracle::{board, simulator};
use pull_ranges::pulls::PullRanges;
use run::state::Run;
use std::alloc::{AllocError, Global};
use vectors::values::Values;
use wheel::wheel::Wheel;

// What the buffers hold before a call, to see that bytes behind an answer stay.
pub const FILL: u8 = 0xa5;

// The run takes 16 bits; a number above them is as far outside as the largest.
fn narrow(n: u32) -> u16 {
    u16::try_from(n).unwrap_or(u16::MAX)
}

// Whether the buffer begins with `text` and is untouched behind it.
pub fn holds(buffer: &[u8], text: &[u8]) -> bool {
    let behind = buffer.strip_prefix(text);
    behind.is_some_and(|rest| rest.iter().all(|b| *b == FILL))
}

fn same_advance<F: Named, C: Calendar>(
    heap: Global,
    tally: &mut Tally,
    run: &mut Run<F, C>,
    sim: &mut Simulator,
    count: u32,
    room: usize,
) -> Result<bool, AllocError> {
    let mut buffer = vec![in heap; FILL; room]?;
    let found = run.advance(count, buffer.as_mut_slice());
    let own = answered(sim.advance(count, room))?;
    let trace = match &own {
        Ok((_, records)) => simulator::trace(heap, records.as_slice())?,
        Err(_) => Vec::new(heap),
    };
    let own = own.map(|(ticks, _)| (ticks, trace.len()));
    Ok(told::same(tally, found, own) && holds(buffer.as_slice(), trace.as_slice()))
}

// Takes one step on both sides, and answers whether they agree.
fn same_step<F: Named, C: Calendar>(
    heap: Global,
    tally: &mut Tally,
    run: &mut Run<F, C>,
    sim: &mut Simulator,
    step: Step,
) -> Result<bool, AllocError> {
    match step {
        Step::Wake(gate, code) => {
            let found = run.wake(narrow(gate), narrow(code));
            Ok(told::same(tally, found, sim.wake(gate, code)))
        }
        Step::Drive(port, code) => {
            let found = run.drive(narrow(port), narrow(code));
            Ok(told::same(tally, found, sim.drive(port, code)))
        }
        Step::Advance(count, room) => same_advance(heap, tally, run, sim, count, room),
        Step::Read(net) => {
            let found = run.read(narrow(net));
            let found = found.map(|(code, definite)| (u32::from(code), definite));
            Ok(told::same(tally, found, sim.read(net)))
        }
        Step::Line(line, out, room) => lines::same_line(
            heap,
            tally,
            run,
            sim,
            line.as_slice(),
            out,
            room,
        ),
    }
}

// One case in four does without the beginning.
fn next_step(
    heap: Global,
    random: &mut Random,
    case: &Case,
    number: u32,
) -> Result<Step, AllocError> {
    if case.steps == Steps::AtTheEnd {
        return Ok(step::at_the_end(case.values(), number).unwrap_or(Step::Read(0)));
    }
    if case.seed / 4 % 4 != 0 {
        if let Some(step) = step::first(random, &case.board, case.values(), number) {
            return Ok(step);
        }
    }
    step::any(heap, random, &case.board, case.values())
}

// Takes the steps of a case; a difference ends it early.
// Kept as it is: a struct that lends tally and random is refused: "a field is lent of a struct that is lent".
fn all_steps<F: Named, C: Calendar>(
    heap: Global,
    tally: &mut Tally,
    random: &mut Random,
    case: &Case,
    run: &mut Run<F, C>,
    sim: &mut Simulator,
) -> Result<(), AllocError> {
    let (gates, ports) = (case.board.gates, case.board.ports);
    for number in 0..gates.saturating_add(ports).saturating_add(50) {
        let step = next_step(heap, random, case, number)?;
        let same = same_step(heap, tally, run, sim, step)?;
        if !same || run.calendar().next() != sim.next_change() {
            return tally.differs(case.seed, Difference::Step(number));
        }
    }
    Ok(())
}

// Whether the run ended where the simulator stands.
fn same_end(
    tally: &mut Tally,
    case: &Case,
    sim: &Simulator,
    ticks: u32,
    records: u64,
) -> Result<(), AllocError> {
    tally.ticks = tally.ticks.saturating_add(u64::from(ticks));
    tally.records = tally.records.saturating_add(records);
    if ticks != sim.ticks() || records != sim.records() {
        tally.differs(case.seed, Difference::End)?;
    }
    Ok(())
}

// Plays a case on a heap, over the family that its seed chooses, and answers the ticks and the records of the run.
fn play_on_heap(
    heap: Global,
    tally: &mut Tally,
    random: &mut Random,
    case: &Case,
    sim: &mut Simulator,
    netlist: Netlist,
    places: usize,
) -> Result<(u32, u64), AllocError> {
    let mut entries = vec![in heap; Entry::BLANK; places]?;
    let calendar = Heap::new(entries.as_mut_slice());
    match case.values() {
        Values::Nine => {
            let mut run: Run<NineValues, Heap> = Run::open(netlist, calendar);
            all_steps(heap, tally, random, case, &mut run, sim)?;
            Ok(run.finish())
        }
        Values::Pulls => {
            let mut run: Run<PullRanges, Heap> = Run::open(netlist, calendar);
            all_steps(heap, tally, random, case, &mut run, sim)?;
            Ok(run.finish())
        }
    }
}

// The same on a wheel.
fn play_on_wheel(
    heap: Global,
    tally: &mut Tally,
    random: &mut Random,
    case: &Case,
    sim: &mut Simulator,
    netlist: Netlist,
    places: usize,
) -> Result<(u32, u64), AllocError> {
    let mut slots = vec![in heap; 0; places]?;
    let calendar = Wheel::new(slots.as_mut_slice());
    match case.values() {
        Values::Nine => {
            let mut run: Run<NineValues, Wheel> = Run::open(netlist, calendar);
            all_steps(heap, tally, random, case, &mut run, sim)?;
            Ok(run.finish())
        }
        Values::Pulls => {
            let mut run: Run<PullRanges, Wheel> = Run::open(netlist, calendar);
            all_steps(heap, tally, random, case, &mut run, sim)?;
            Ok(run.finish())
        }
    }
}

// Plays a case to its end, where both sides take its file.
pub fn play_case(
    heap: Global,
    tally: &mut Tally,
    random: &mut Random,
    case: &Case,
) -> Result<(), AllocError> {
    let bytes = case.board.bytes.as_slice();
    let Ok(netlist) = board_of(bytes) else {
        return tally.differs(case.seed, Difference::File);
    };
    tally.cases = tally.cases.saturating_add(1);
    let Ok(own) = answered(board::decode(heap, bytes))? else {
        return tally.differs(case.seed, Difference::File);
    };
    let places = case.places(random);
    let mut sim = Simulator::new(heap, case.family(), own, places >= case.enough())?;
    let room = places as usize;
    let (ticks, records) = match case.make() {
        Make::Heap => play_on_heap(heap, tally, random, case, &mut sim, netlist, room)?,
        Make::Wheel => play_on_wheel(heap, tally, random, case, &mut sim, netlist, room)?,
    };
    same_end(tally, case, &sim, ticks, records)
}
