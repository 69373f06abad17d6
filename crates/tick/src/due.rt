ghost use Rattle.std.specs.Prelude.{◌≡◌, ◌<◌, slice_set};
ghost use Rattle.calendar.specs.Agenda.{with_waiting};
ghost use Rattle.tick.specs.Due.{applied, left_over, is_first};

use calendar::calendar::Calendar;
use logic::family::Family;

// Takes every entry of the tick, and sets what its gate drives.
pub fn take_due<F: Family, C: Calendar>(calendar: &mut C, tick: u32, drives: &mut [F::Value; 1024])
    ensures drives { drives.new ≡ applied F.Family.logic tick drives.old (C.Calendar.meaning calendar.old).waiting }
    ensures calendar { C.Calendar.meaning calendar.new ≡ with_waiting (C.Calendar.meaning calendar.old) (left_over tick (C.Calendar.meaning calendar.old).waiting) }
{
    while is_due(calendar, tick)
        && let Some(e) = calendar.take()
    {
        if let Some(v) = F::of_code(e.code) {
            put_drive::<F>(drives, e.gate, v);
        }
    }
}

// Whether the first entry that waits is of the tick.
pub fn is_due<C: Calendar>(calendar: &C, tick: u32) -> bool
    ensures { result ≡ is_first tick (C.Calendar.meaning calendar.now).waiting }
{
    calendar.next() == Some(tick)
}

// What a gate drives from now on.
fn put_drive<F: Family>(drives: &mut [F::Value; 1024], g: u16, v: F::Value)
    requires { g < 1024 }
    ensures { drives.new ≡ slice_set drives.old g v }
{
    drives[g as usize] = v;
}
