// Runs over both calendars and both families: one board, every refusal, short buffers, the last tick, and two runs side by side.

#![tactic(auto)]

mod boards;
mod say;
mod serve;
mod steps;

use crate::boards::{BUS, INVERTER, STILL};
use crate::say::say_end;
use crate::serve::{serve, serve_two};
use crate::steps::{LAST, Level, PAIRS, PULSE, REFUSALS, Step};
use board_file::file::board_or_empty;
use calendar::entry::Entry;
use heap::heap::Heap;
use nine_values::nine::NineValues;
use pull_ranges::pulls::PullRanges;
use run::state::Run;
use std::io;
use wheel::wheel::Wheel;

fn buses(rt: &HostRuntime) -> io::Result<()> {
    let mut entries = [Entry::BLANK; 70];
    let mut slots = [0; 260];
    let mut run: Run<NineValues, Heap> = Run::open(board_or_empty(BUS), Heap::new(&mut entries));
    serve(rt, "heap 70", &mut run, PULSE)?;
    say_end(rt, run.finish())?;
    let mut run: Run<NineValues, Wheel> = Run::open(board_or_empty(BUS), Wheel::new(&mut slots));
    serve(rt, "wheel 260", &mut run, PULSE)?;
    say_end(rt, run.finish())?;
    let mut run: Run<PullRanges, Heap> = Run::open(board_or_empty(BUS), Heap::new(&mut entries));
    serve(rt, "heap 70", &mut run, PULSE)?;
    say_end(rt, run.finish())?;
    let mut run: Run<PullRanges, Wheel> = Run::open(board_or_empty(BUS), Wheel::new(&mut slots));
    serve(rt, "wheel 260", &mut run, PULSE)?;
    say_end(rt, run.finish())
}

fn refusals(rt: &HostRuntime) -> io::Result<()> {
    let mut entries = [Entry::BLANK; 2];
    let mut slots = [0; 65];
    let mut too_few = [Entry::BLANK; 1];
    let mut too_short = [0; 64];
    let mut run: Run<NineValues, Heap> = Run::open(
        board_or_empty(INVERTER),
        Heap::new(&mut entries),
    );
    serve(rt, "heap 2", &mut run, REFUSALS)?;
    say_end(rt, run.finish())?;
    let mut run: Run<PullRanges, Wheel> = Run::open(
        board_or_empty(INVERTER),
        Wheel::new(&mut slots),
    );
    serve(rt, "wheel 65", &mut run, REFUSALS)?;
    say_end(rt, run.finish())?;
    let mut run: Run<NineValues, Heap> = Run::open(
        board_or_empty(INVERTER),
        Heap::new(&mut too_few),
    );
    serve(rt, "heap 1", &mut run, REFUSALS)?;
    say_end(rt, run.finish())?;
    let mut run: Run<NineValues, Wheel> = Run::open(
        board_or_empty(INVERTER),
        Wheel::new(&mut too_short),
    );
    serve(rt, "wheel 64", &mut run, REFUSALS)?;
    say_end(rt, run.finish())
}

// An advance of the inverter by 4 ticks, with a buffer of every length.
fn stops(rt: &HostRuntime) -> io::Result<()> {
    let mut entries = [Entry::BLANK; 2];
    for length in 0..42 {
        let steps = [Step::Drive(0, Level::High), Step::Advance(4, length)];
        let mut run: Run<NineValues, Heap> = Run::open(
            board_or_empty(INVERTER),
            Heap::new(&mut entries),
        );
        serve(rt, "heap 2", &mut run, &steps)?;
        say_end(rt, run.finish())?;
    }
    Ok(())
}

fn ends(rt: &HostRuntime) -> io::Result<()> {
    let mut entries = [Entry::BLANK; 1];
    let mut slots = [0; 65];
    let mut run: Run<NineValues, Heap> = Run::open(board_or_empty(STILL), Heap::new(&mut entries));
    serve(rt, "heap 1", &mut run, LAST)?;
    say_end(rt, run.finish())?;
    let mut run: Run<PullRanges, Wheel> = Run::open(board_or_empty(STILL), Wheel::new(&mut slots));
    serve(rt, "wheel 65", &mut run, LAST)?;
    say_end(rt, run.finish())
}

fn sides(rt: &HostRuntime) -> io::Result<()> {
    let mut entries = [Entry::BLANK; 2];
    let mut slots = [0; 65];
    let mut first: Run<NineValues, Heap> = Run::open(
        board_or_empty(INVERTER),
        Heap::new(&mut entries),
    );
    let mut second: Run<NineValues, Wheel> = Run::open(
        board_or_empty(INVERTER),
        Wheel::new(&mut slots),
    );
    serve_two(rt, &mut first, &mut second, PAIRS)
}

fn main(rt: HostRuntime) -> io::Result<()> {
    buses(&rt)?;
    refusals(&rt)?;
    stops(&rt)?;
    ends(&rt)?;
    sides(&rt)
}
