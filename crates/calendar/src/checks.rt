ghost use Rattle.std.specs.Prelude.{◌≡◌, ◌+◌, ◌<◌, ◌≤◌, ◌↔◌, IsOk, IsErr};
ghost use Rattle.calendar.specs.Agenda.{Agenda, first_tick, put_answer, turn_answer};

use crate::entry::{CalendarFault, Entry, Reason};

// How many ticks ahead an entry may wait.
pub const AHEAD: u32 = 64;

// The last tick that can be now.
pub const LAST: u32 = 16_777_216;

// Whether an entry may be put at tick `today` into a calendar of so many gates, but for what waits there: refused with 11 or 12.
pub fn check_slot(today: u32, gates: u16, e: Entry) -> Result<(), CalendarFault>
    ensures ok { IsOk result ↔ ((e.gate < gates) × (today < e.tick) × (e.tick ≤ today + 64)) }
    ensures refused { IsErr result → (a : Agenda) → a.today ≡ today → a.gates ≡ gates → result ≡ put_answer a e }
{
    if e.gate >= gates {
        return Err(Reason::NoGate.at(today));
    }
    if e.tick <= today || e.tick - today > AHEAD {
        return Err(Reason::BadTick.at(today));
    }
    Ok(())
}

// Whether now may be set from `today` to that tick, where the earliest entry waits for `soonest`: refused with 15.
// What waits is asked first: who has just looked at it need not look twice.
pub fn check_turn(today: u32, tick: u32, soonest: Option<u32>) -> Result<(), CalendarFault>
    ensures { (a : Agenda) → a.today ≡ today → first_tick a.waiting ≡ soonest → result ≡ turn_answer a tick }
{
    if soonest.is_some_and(|t| t < tick) || tick < today || tick > LAST {
        return Err(Reason::BadTurn.at(today));
    }
    Ok(())
}
