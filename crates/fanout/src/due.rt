ghost use Rattle.std.specs.Prelude.{◌≡◌, ℕ, ◌<◌, false, length, slice_index_or};
ghost use Rattle.calendar.specs.Agenda.{Agenda, with_waiting};
ghost use Rattle.netlist.specs.Looked.{contents};
ghost use Rattle.number_set.specs.Members.{member};
ghost use Rattle.signal.specs.Circuit.{gate};
ghost use Rattle.tick.specs.Due.{applied, left_over, levelled};
ghost use Rattle.fanout.specs.Seek.{out_of};

use crate::wiring::Wiring;
use calendar::calendar::Calendar;
use calendar::entry::Entry;
use logic::family::Family;
use number_set::set::NumberSet;
use tick::due::is_due;

// Takes every entry of the tick, sets what its gate drives, and adds the net that it drives to the
// set: a gate whose net does not stand there drives what it did.
pub(crate) fn take_touched<F: Family, C: Calendar>(
    calendar: &mut C,
    tick: u32,
    drives: &mut [F::Value; 1024],
    wiring: &Wiring,
    nets: &mut NumberSet,
)
    ensures drives { drives.new ≡ applied F.Family.logic tick drives.old (C.Calendar.meaning calendar.old).waiting }
    ensures calendar { C.Calendar.meaning calendar.new ≡ with_waiting (C.Calendar.meaning calendar.old) (left_over tick (C.Calendar.meaning calendar.old).waiting) }
    ensures touched { (g : ℕ) → g < wiring.now.net.head.gates → member nets.new.words (out_of (contents wiring.now.net) g) ≡ false → slice_index_or drives.new g F.Family.logic.unset ≡ slice_index_or drives.old g F.Family.logic.unset }
{
    while is_due(calendar, tick)
        && let Some(e) = calendar.take()
    {
        apply::<F>(wiring, drives, nets, e);
    }
}

// One entry of the tick.
fn apply<F: Family>(wiring: &Wiring, drives: &mut [F::Value; 1024], nets: &mut NumberSet, e: Entry)
    requires { e.gate < 1024 }
    ensures drives { drives.new ≡ levelled (F.Family.logic.of_code e.code) e.gate drives.old }
    ensures kept { (n : ℕ) → n < 1024 → member nets.new.words n ≡ false → member nets.old.words n ≡ false }
    ensures touched { (g : ℕ) → g < wiring.now.net.head.gates → member nets.new.words (out_of (contents wiring.now.net) g) ≡ false → slice_index_or drives.new g F.Family.logic.unset ≡ slice_index_or drives.old g F.Family.logic.unset }
{
    let Some(v) = F::of_code(e.code) else {
        return;
    };
    let g = e.gate as usize;
    drives[g] = v;
    nets.set(wiring.net.gates[g].out, true);
}
