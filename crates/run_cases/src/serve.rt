// Generic code that works runs: it serves every family and every calendar.
use crate::say::{Answer, UNWRITTEN, say};
use crate::steps::{Level, Step};
use calendar::calendar::Calendar;
use logic::family::Family;
use run::state::Run;
use run::state::compare::contradiction;
use std::io;

// A strong level is what inverts a pull to the other one.
fn code<F: Family>(level: Level) -> u16 {
    match level {
        Level::Low => F::code(F::not(F::pull_up())),
        Level::High => F::code(F::not(F::pull_down())),
        Level::Wrong => 65535,
    }
}

// Calls the run, and says its answer. An advance has a buffer of the step's length, at most 240.
fn act<F: Family, C: Calendar>(
    rt: &HostRuntime,
    run: &mut Run<F, C>,
    step: Step,
) -> io::Result<()> {
    let mut trace = [UNWRITTEN; 240];
    let answer = match step {
        Step::Wake(gate, level) => run.wake(gate, code::<F>(level)).map(|_| Answer::Done),
        Step::Drive(port, level) => run.drive(port, code::<F>(level)).map(|_| Answer::Done),
        Step::Advance(ticks, length) => {
            let room = length.min(240);
            run.advance(ticks, &mut trace[..room])
                .map(|(ticks, bytes)| Answer::Advanced(ticks, bytes))
        }
        Step::Read(net) => run
            .read(net)
            .map(|(code, definite)| Answer::Level(code, definite)),
    };
    say(rt, answer, &trace)
}

pub fn serve<F: Family, C: Calendar>(
    rt: &HostRuntime,
    title: &str,
    run: &mut Run<F, C>,
    steps: &[Step],
) -> io::Result<()> {
    println!(rt; "-- {title}")?;
    for step in steps {
        act(rt, run, *step)?;
    }
    Ok(())
}

// Two runs of one board side by side; after each pair of calls, whether the second contradicts the first.
pub fn serve_two<F: Family, C: Calendar, D: Calendar>(
    rt: &HostRuntime,
    first: &mut Run<F, C>,
    second: &mut Run<F, D>,
    pairs: &[(Step, Step)],
) -> io::Result<()> {
    println!(rt; "-- two runs")?;
    for (one, other) in pairs {
        act(rt, first, *one)?;
        act(rt, second, *other)?;
        match contradiction(first, second) {
            Some(net) => println!(rt; "contradicted at net {net}")?,
            None => println!(rt; "not contradicted")?,
        }
    }
    Ok(())
}
