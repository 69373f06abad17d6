#![tactic(auto)]

mod bounds;
mod call;
mod drive;
mod plain;
mod tally;

use crate::bounds::{bounds, full, sixty_five};
use crate::call::ask;
use crate::drive::{differing, drive};
use crate::plain::Plain;
use calendar::calendar::Calendar;
use calendar::entry::Entry;
use cases::random::Random;
use heap::heap::Heap;
use wheel::wheel::Wheel;

// The calls of heap and wheel side by side, over a board's room for both.
fn pair(rt: &HostRuntime) -> anyhow::Result<()> {
    let mut entries = [Entry::BLANK; 65536];
    let mut codes = [7; 66560];
    let mut heap = Heap::new(&mut entries);
    let mut wheel = Wheel::new(&mut codes);
    let mut plain = Plain::new(rt.alloc(), 1024, 65536);
    let random = Random::from_state(88172645463325252);
    let tally = drive(random, 100_000, &mut plain, |call, right| {
        differing(&[ask(&mut heap, call), ask(&mut wheel, call)], right)
    })?;
    println!(rt; "heap and wheel: {tally}")?;
    Ok(())
}

fn alone<C: Calendar + Drop>(
    rt: &HostRuntime,
    name: &str,
    mut c: C,
    rounds: u32,
) -> anyhow::Result<()> {
    let mut plain = Plain::new(rt.alloc(), c.gates(), c.capacity());
    let random = Random::from_state(362436069362436069);
    let tally = drive(random, rounds, &mut plain, |call, right| {
        differing(&[ask(&mut c, call)], right)
    })?;
    println!(rt; "{name}: {tally}")?;
    Ok(())
}

fn small_heaps(rt: &HostRuntime) -> anyhow::Result<()> {
    let mut five = [Entry::BLANK; 5];
    let mut none = [Entry::BLANK; 0];
    alone(rt, "heap of 5", Heap::new(&mut five), 20_000)?;
    alone(rt, "heap of 0", Heap::new(&mut none), 2_000)
}

fn small_wheels(rt: &HostRuntime) -> anyhow::Result<()> {
    let mut many = [7; 4225];
    let mut three = [7; 200];
    let mut one = [7; 65];
    let mut none = [7; 64];
    alone(rt, "wheel of 65 gates", Wheel::new(&mut many), 20_000)?;
    alone(rt, "wheel of 3 gates", Wheel::new(&mut three), 20_000)?;
    alone(rt, "wheel of 1 gate", Wheel::new(&mut one), 20_000)?;
    alone(rt, "wheel of 0 gates", Wheel::new(&mut none), 2_000)
}

// A buffer a little longer than is used.
fn edges(rt: &HostRuntime) -> anyhow::Result<()> {
    let mut entries = [Entry::BLANK; 65537];
    let mut codes = [7; 66625];
    bounds(rt, "heap", Heap::new(&mut entries))?;
    bounds(rt, "wheel", Wheel::new(&mut codes))
}

fn rooms(rt: &HostRuntime) -> anyhow::Result<()> {
    let mut two = [Entry::BLANK; 2];
    let mut none = [Entry::BLANK; 0];
    let mut codes = [7; 64];
    full(rt, "heap of 2", Heap::new(&mut two))?;
    full(rt, "heap of 0", Heap::new(&mut none))?;
    full(rt, "wheel of 0 gates", Wheel::new(&mut codes))
}

fn waits(rt: &HostRuntime) -> anyhow::Result<()> {
    let mut short = [Entry::BLANK; 64];
    let mut long = [Entry::BLANK; 65];
    let mut one = [7; 129];
    let mut two = [7; 130];
    sixty_five(rt, "heap of 64", Heap::new(&mut short))?;
    sixty_five(rt, "heap of 65", Heap::new(&mut long))?;
    sixty_five(rt, "wheel of 1 gate", Wheel::new(&mut one))?;
    sixty_five(rt, "wheel of 2 gates", Wheel::new(&mut two))
}

fn main(rt: HostRuntime) -> anyhow::Result<()> {
    edges(&rt)?;
    rooms(&rt)?;
    waits(&rt)?;
    pair(&rt)?;
    small_heaps(&rt)?;
    small_wheels(&rt)
}
