use crate::call::{Answer, Call};
use crate::plain::Plain;
use crate::tally::Tally;
use cases::random::Random;
use std::alloc::AllocError;

// A call by chance: ticks a little before, in and behind the window, gates a little past the last.
fn chosen(x: u64, plain: &Plain) -> Call {
    let far = ((x >> 8) % 67) as u32;
    let gates = plain.gates.wrapping_add(2).max(1);
    let gate = ((x >> 16) % 65536) as u16 % gates;
    match x % 32 {
        0 => Call::Now,
        1 => Call::Gates,
        2 => Call::Capacity,
        3 | 4 => Call::Next,
        5 => Call::Turn(plain.today.wrapping_add(far)),
        6 => Call::Turn(plain.today.wrapping_sub(1)),
        7..=10 => Call::Turn(plain.next().unwrap_or(plain.today.wrapping_add(1))),
        11..=17 => Call::Take,
        _ => Call::Put(plain.today.wrapping_add(far), gate, ((x >> 32) % 9) as u16),
    }
}

// How many of the answers are not the right one.
pub fn differing(answers: &[Answer], right: Answer) -> usize {
    answers.iter().filter(|answer| **answer != right).count()
}

// Makes the same calls by chance of a plain calendar and of others. The closure asks the others, and says how many of their answers
// are not the right one.
pub(crate) fn drive<D: FnMut(Call, Answer) -> usize>(
    mut random: Random,
    rounds: u32,
    plain: &mut Plain,
    mut others_differ: D,
) -> Result<Tally, AllocError>
    requires { D.IsAlwaysCallable others_differ }
{
    let mut tally = Tally::default();
    for _ in 0..rounds {
        let call = chosen(random.draw(), plain);
        let right = plain.ask(call)?;
        tally.count(right);
        tally.differ = tally.differ.saturating_add(others_differ(call, right));
        tally.most = tally.most.max(plain.waits());
    }
    Ok(tally)
}
