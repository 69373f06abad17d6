ghost use Rattle.std.specs.Prelude.{◌≡◌, ℕ, ◌<◌, false, length, slice_index};
ghost use Rattle.calendar.specs.Agenda.{with_waiting, before_tick};
ghost use Rattle.calendar.specs.Table.{code_at, later};
ghost use Rattle.calendar.specs.Laws.{Laws};
ghost use Rattle.calendar.specs.Due.{applied, first_due_by, or_else};

use crate::calendar::Calendar;

// Takes every entry due by the tick, in order, and sets each gate's level to its code. Where
// nothing waits for an earlier tick, each gate sees the one code that waits for it, or keeps its level.
pub fn take_due<C: Calendar>(calendar: &mut C, tick: u32, levels: &mut [u16; 1024])
    ensures levels { levels.new ≡ applied tick levels.old (C.meaning calendar.old).waiting }
    ensures after { C.meaning calendar.new ≡ with_waiting (C.meaning calendar.old) (later tick (C.meaning calendar.old).waiting) }
    ensures seen { before_tick (C.meaning calendar.old).waiting tick ≡ false → (g : ℕ) → g < length levels.old → slice_index levels.new g ≡ or_else (code_at tick g (C.meaning calendar.old).waiting) (slice_index levels.old g) }
    ensures lawful { Laws (C.meaning calendar.old) }
{
    while is_due(calendar, tick)
        && let Some(e) = calendar.take()
    {
        levels[e.gate as usize] = e.code;
    }
}

// Whether an entry waits for the tick or an earlier one.
pub fn is_due<C: Calendar>(calendar: &C, tick: u32) -> bool
    ensures { result ≡ first_due_by tick (C.meaning calendar.now).waiting }
{
    calendar.next().is_some_and(|t| t <= tick)
}
