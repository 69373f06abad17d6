use crate::call::{Call, ask};
use calendar::calendar::Calendar;
use calendar::client::take_due;
use calendar::entry::Entry;
use std::iter;

// Calls with their names.
type Calls = &'static [(&'static str, Call)];

const SIZES: Calls = &[
    ("now", Call::Now),
    ("gates", Call::Gates),
    ("capacity", Call::Capacity),
    ("next", Call::Next),
    ("take", Call::Take),
];

// Each refusal but 14, on both sides of its bound.
const BOUNDS: Calls = &[
    ("put gate 1024", Call::Put(1, 1024, 1)),
    ("put gate 1023", Call::Put(1, 1023, 1)),
    ("put now", Call::Put(0, 0, 1)),
    ("put now + 65", Call::Put(65, 0, 1)),
    ("put now + 64", Call::Put(64, 0, 2)),
    ("put it again", Call::Put(64, 0, 3)),
    ("gate before tick", Call::Put(65, 1024, 1)),
    ("tick before double", Call::Put(0, 1023, 1)),
    ("next", Call::Next),
    ("turn past a wait", Call::Turn(2)),
    ("turn to a wait", Call::Turn(1)),
    ("take", Call::Take),
    ("turn back", Call::Turn(0)),
];

// The last ticks that a calendar has.
const ENDS: Calls = &[
    ("take", Call::Take),
    ("turn to 16777217", Call::Turn(16_777_217)),
    ("turn to 16777216", Call::Turn(16_777_216)),
    ("put past it", Call::Put(16_777_280, 3, 4)),
    ("put too far past it", Call::Put(16_777_281, 3, 4)),
    ("take", Call::Take),
    ("put the last tick of all", Call::Put(4_294_967_295, 3, 4)),
    ("now", Call::Now),
];

// Puts to a calendar with little room.
const ROOM: Calls = &[
    ("put", Call::Put(3, 2, 1)),
    ("put", Call::Put(3, 1, 1)),
    ("double before full", Call::Put(3, 1, 1)),
    ("put", Call::Put(3, 0, 1)),
    ("take", Call::Take),
    ("put", Call::Put(3, 0, 1)),
    ("take", Call::Take),
];

fn make<C: Calendar>(rt: &HostRuntime, c: &mut C, calls: Calls) -> anyhow::Result<()> {
    for (name, call) in calls {
        let answer = ask(c, *call);
        println!(rt; "  {name}: {answer}")?;
    }
    Ok(())
}

pub fn bounds<C: Calendar + Drop>(rt: &HostRuntime, name: &str, mut c: C) -> anyhow::Result<()> {
    println!(rt; "{name}")?;
    make(rt, &mut c, SIZES)?;
    make(rt, &mut c, BOUNDS)?;
    let mut levels = [5u16; 1024];
    take_due(&mut c, 64, &mut levels);
    println!(rt; "  levels {} {}", levels[0], levels[1])?;
    make(rt, &mut c, ENDS)
}

pub fn full<C: Calendar + Drop>(rt: &HostRuntime, name: &str, mut c: C) -> anyhow::Result<()> {
    println!(rt; "{name}")?;
    make(rt, &mut c, SIZES)?;
    make(rt, &mut c, ROOM)
}

// Kept as it is: `calendar_speed` mixes other fields with another factor, and the printed sums stay.
fn mixed(sum: u64, e: Entry) -> u64 {
    sum.wrapping_mul(66)
        .wrapping_add(u64::from(e.tick))
        .wrapping_add(u64::from(e.code))
}

// An entry for each of 65 ticks in a row, if there is room, and all of them back in order.
pub fn sixty_five<C: Calendar + Drop>(
    rt: &HostRuntime,
    name: &str,
    mut c: C,
) -> anyhow::Result<()> {
    println!(rt; "{name}")?;
    for tick in 1..65 {
        let _ = c.put(tick, 0, tick as u16);
    }
    make(
        rt,
        &mut c,
        &[
            ("turn to 1", Call::Turn(1)),
            ("put the 65th", Call::Put(65, 0, 65)),
        ],
    )?;
    let sum = iter::from_fn(|| c.take()).take(66).fold(0, mixed);
    println!(rt; "  the sum of what was taken {sum}")?;
    make(rt, &mut c, &[("take", Call::Take)])
}
