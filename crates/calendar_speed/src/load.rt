use calendar::calendar::Calendar;
use calendar::entry::Entry;
use cases::random::Random;
use std::{fmt, iter};

// What a calendar is made to do.
#[derive(Clone, Copy)]
pub enum Load {
    // takes the first entry and puts one for the same gate: 200 gates, and each waits always
    Steady,
    // puts an entry for each of 1,024 gates, over 64 ticks, and takes them all
    Flood,
}

impl fmt::Display for Load {
    fn fmt<W: fmt::Write>(&self, f: &mut fmt::Formatter<W>) -> fmt::Result {
        f.write_str(match self {
            Load::Steady => "200 wait",
            Load::Flood => "0 to 1,024 wait",
        })
    }
}

impl Load {
    // So many entries, and the sum of what was taken.
    pub fn carry<C: Calendar + Drop>(self, c: C, entries: u32) -> u64 {
        match self {
            Load::Steady => carry_steady(c, entries),
            Load::Flood => carry_flood(c, entries),
        }
    }
}

// Kept as it is: `calendar_cases` mixes other fields with another factor, and the printed sums stay.
fn mixed(sum: u64, e: Entry) -> u64 {
    sum.wrapping_mul(31)
        .wrapping_add(u64::from(e.tick))
        .wrapping_add(u64::from(e.gate))
}

// Turns to the first entry and takes it.
fn turned<C: Calendar>(c: &mut C) -> Option<Entry> {
    let tick = c.next()?;
    let _ = c.turn(tick);
    c.take()
}

fn delay(random: &mut Random) -> u32 {
    ((random.draw() >> 20) % 64) as u32 + 1
}

// An entry for each of 200 gates.
fn fill<C: Calendar>(c: &mut C, random: &mut Random) {
    for gate in 0..200 {
        let _ = c.put(delay(random), gate, 1);
    }
}

fn carry_steady<C: Calendar + Drop>(mut c: C, entries: u32) -> u64 {
    let mut random = Random::from_state(88172645463325252);
    let mut sum = 0;
    fill(&mut c, &mut random);
    for _ in 0..entries {
        let later = delay(&mut random);
        if let Some(e) = turned(&mut c) {
            let _ = c.put(e.tick.wrapping_add(later), e.gate, e.code);
            sum = mixed(sum, e);
        }
    }
    sum
}

fn carry_flood<C: Calendar + Drop>(mut c: C, entries: u32) -> u64 {
    let mut sum = 0;
    for i in 0..entries {
        if i % 1024 == 0 {
            sum = emptied(&mut c, sum);
        }
        let tick = c.now().wrapping_add(1).wrapping_add(i % 64);
        let _ = c.put(tick, (i % 1024) as u16, (i % 9) as u16);
    }
    emptied(&mut c, sum)
}

// Takes all entries, at most one of each gate.
fn emptied<C: Calendar>(c: &mut C, sum: u64) -> u64 {
    iter::from_fn(|| turned(c)).take(1024).fold(sum, mixed)
}
