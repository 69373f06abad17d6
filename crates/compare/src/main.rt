// Drives the bench and the independent simulator through the same cases, both families and both
// calendars, and compares every answer and every byte. Says how many cases it saw and how often
// each refusal came, so that a hole shows. A number as argument is the number of cases.

#![tactic(auto)]

mod bench;
mod case;
mod files;
mod lines;
mod make;
mod play;
mod tally;
mod told;

use make::Make;
use std::alloc::Global;
use std::{env, io};
use tally::Tally;

// What the gate runs.
const CASES: u64 = 400;

// The number of cases that the first argument asks for.
fn wanted(rt: &HostRuntime) -> io::Result<u64> {
    let mut words = env::args(rt)?;
    let word = words.nth(1);
    let number = word.and_then(|word| word.as_str().parse::<u64>().ok());
    Ok(number.unwrap_or(CASES))
}

// The verdict first, then what was seen: a number that never came is a hole.
fn report(rt: &HostRuntime, tally: &Tally) -> io::Result<()> {
    let (cases, differing) = (tally.cases, tally.differing.len());
    println!(rt; "{differing} of {cases} cases differ")?;
    for (seed, what) in tally.differing.iter() {
        println!(rt; "seed {seed} differs at {what}")?;
    }
    let (ticks, records, lines) = (tally.ticks, tally.records, tally.lines);
    println!(rt; "{ticks} ticks, {records} records, {lines} script lines")?;
    report_refusals(rt, tally)
}

fn report_refusals(rt: &HostRuntime, tally: &Tally) -> io::Result<()> {
    print!(rt; "refusals")?;
    for (number, count) in tally.refusals.iter().enumerate() {
        // 11 to 15 are a calendar's, and a run never brings them about
        if number > 0 && (number < 11 || number > 15) {
            print!(rt; " {number}:{count}")?;
        }
    }
    println!(rt; "")
}

fn outside(rt: &HostRuntime) -> io::Result<()> {
    for make in [Make::Heap, Make::Wheel] {
        let (good, all) = bench::agreeing(rt.alloc(), make)?;
        println!(rt; "{good} of {all} outside vectors agree on the {make}")?;
    }
    Ok(())
}

fn main(rt: HostRuntime) -> io::Result<()> {
    let heap: Global = rt.alloc();
    outside(&rt)?;
    let mut tally = Tally::new(heap);
    case::compare_ends(heap, &mut tally)?;
    for seed in 0..wanted(&rt)? {
        case::compare(heap, &mut tally, seed)?;
    }
    report(&rt, &tally)
}
