// Both calendars under two loads. With no argument a short run whose sums are compared; with a number of entries,
// the time that each load takes.

#![tactic(auto)]

mod load;

use crate::load::Load;
use calendar::entry::Entry;
use heap::heap::Heap;
use std::env;
use std::time::{Duration, Instant};
use wheel::wheel::Wheel;

const SHORT: u32 = 1000;

fn on_heap(load: Load, entries: u32) -> u64 {
    let mut buffer = [Entry::BLANK; 65536];
    load.carry(Heap::new(&mut buffer), entries)
}

fn on_wheel(load: Load, entries: u32) -> u64 {
    let mut buffer = [0; 66560];
    load.carry(Wheel::new(&mut buffer), entries)
}

// The sum that some work comes to, and the time that it takes.
fn timed<W: FnOnce() -> u64>(rt: &HostRuntime, work: W) -> anyhow::Result<(u64, Duration)>
    requires { W.IsAlwaysCallable work }
{
    let start = Instant::now(rt)?;
    let sum = work();
    Ok((sum, start.elapsed(rt)?))
}

fn measure(rt: &HostRuntime, load: Load, entries: u32) -> anyhow::Result<()> {
    let (a, heap) = timed(rt, || on_heap(load, entries))?;
    let (b, wheel) = timed(rt, || on_wheel(load, entries))?;
    let same = a == b;
    println!(rt; "{load}: {entries} entries, equal {same}, heap {heap:?}, wheel {wheel:?}")?;
    Ok(())
}

fn compare(rt: &HostRuntime, load: Load) -> anyhow::Result<()> {
    let a = on_heap(load, SHORT);
    let b = on_wheel(load, SHORT);
    println!(rt; "{a} {b}")?;
    Ok(())
}

fn main(rt: HostRuntime) -> anyhow::Result<()> {
    let wanted = env::args(&rt)?.find_map(|word| word.parse::<u32>().ok());
    for load in [Load::Steady, Load::Flood] {
        match wanted {
            Some(entries) if entries > 0 => measure(&rt, load, entries)?,
            _ => compare(&rt, load)?,
        }
    }
    Ok(())
}
