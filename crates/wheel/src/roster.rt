ghost use Rattle.std.specs.Prelude.{◌≡◌, true, false, Some, None, ℕ, ◌%◌, ◌<◌, ◌&&◌, length, if◌then◌else◌, ◌==◌, nat_eq};
ghost use Rattle.wheel.specs.Roster.{present, Least, FirstWait};

use number_set::set::NumberSet;

// A row for each tick that can wait.
pub const ROWS: usize = 65;

// Adds a gate to the row of a tick.
pub(crate) fn add_gate(roster: &mut [NumberSet; ROWS], tick: u32, gate: u16)
    ensures sets { length roster.new ≡ 65 }
    ensures there { (r g : ℕ) → r < 65 → g < 1024 → present roster.new r g ≡ (if nat_eq r (tick % 65) && g == gate then true else present roster.old r g) }
{
    roster[tick as usize % ROWS].insert(gate);
}

// Removes a gate from the row of a tick.
pub(crate) fn remove_gate(roster: &mut [NumberSet; ROWS], tick: u32, gate: u16)
    ensures sets { length roster.new ≡ 65 }
    ensures there { (r g : ℕ) → r < 65 → g < 1024 → present roster.new r g ≡ (if nat_eq r (tick % 65) && g == gate then false else present roster.old r g) }
{
    roster[tick as usize % ROWS].remove(gate);
}

// Whether a gate stands in the row of a tick.
pub(crate) fn stands(roster: &[NumberSet; ROWS], tick: u32, gate: u16) -> bool
    ensures { result ≡ present roster.now (tick % 65) gate }
{
    roster[tick as usize % ROWS].contains(gate)
}

// The least gate in the row of a tick.
pub(crate) fn first_gate(roster: &[NumberSet; ROWS], tick: u32) -> Option<u16>
    ensures { Least roster.now (tick % 65) result }
{
    roster[tick as usize % ROWS].first()
}

// Whether any gate stands in the row of a tick.
fn waits(roster: &[NumberSet; ROWS], tick: u32) -> bool
    ensures some { result ≡ true → (g : ℕ) × Least roster.now (tick % 65) (Some g) }
    ensures none { result ≡ false → Least roster.now (tick % 65) None }
{
    first_gate(roster, tick).is_some()
}

// The first tick from `from` on, and before `end`, in whose row a gate stands: a look at 65 rows at most.
pub(crate) fn first_wait(roster: &[NumberSet; ROWS], from: u32, end: u32) -> Option<u32>
    ensures { FirstWait roster.now from end result }
{
    (from..end).find(|t| waits(roster, *t))
}
