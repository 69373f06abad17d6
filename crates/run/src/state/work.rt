ghost use Rattle.std.specs.Prelude.{◌≡◌, ℕ, ◌<◌, true, length, slice_index_or};
ghost use Rattle.calendar.specs.Agenda.{Agenda, with_waiting};
ghost use Rattle.fanout.specs.Steady.{Steady};
ghost use Rattle.netlist.specs.Looked.{contents};
ghost use Rattle.signal.specs.Signal.{resolved};
ghost use Rattle.tick.specs.Due.{applied, left_over};
ghost use Rattle.tick.specs.Plans.{result_at, plans};
ghost use Rattle.tick.specs.Settled.{drivers_of};

use calendar::calendar::Calendar;
use fanout::wiring::Wiring;
use fanout::work::work_changed;
use logic::family::Family;
use tick::due::take_due;
use tick::moment::Moment;
use tick::plan::plan;
use tick::settle::settle;

// Works a tick: over every net and gate, or, of a calm run, over those that the entries of the tick reach.
// Kept as it is: eight parameters: the public calls that it makes take the tables one by one, and a struct would be taken apart.
pub(crate) fn work<F: Family, C: Calendar>(
    calm: bool,
    calendar: &mut C,
    wiring: &Wiring,
    ports: &[F::Value; 1024],
    drives: &mut [F::Value; 1024],
    levels: &mut [F::Value; 1024],
    planned: &mut [F::Value; 1024],
    moment: Moment,
)
    ensures drives { drives.new ≡ applied F.Family.logic moment.tick drives.old (C.Calendar.meaning calendar.old).waiting }
    ensures long { length levels.new ≡ length levels.old }
    ensures wide { length planned.new ≡ length planned.old }
    ensures levels { (calm ≡ true → Steady F.Family.logic (contents wiring.now.net) ports.now drives.old levels.old planned.old) → (n : ℕ) → n < 1024 → slice_index_or levels.new n F.Family.logic.unset ≡ resolved F.Family.logic (drivers_of F.Family.logic (contents wiring.now.net) ports.now drives.new n) }
    ensures planned { (calm ≡ true → Steady F.Family.logic (contents wiring.now.net) ports.now drives.old levels.old planned.old) → (g : ℕ) → g < wiring.now.net.head.gates → slice_index_or planned.new g F.Family.logic.unset ≡ result_at F.Family.logic (contents wiring.now.net) levels.new g }
    ensures calendar { (calm ≡ true → Steady F.Family.logic (contents wiring.now.net) ports.now drives.old levels.old planned.old) → C.Calendar.meaning calendar.new ≡ plans F.Family.logic (contents wiring.now.net) levels.new planned.old moment.tick wiring.now.net.head.gates (with_waiting (C.Calendar.meaning calendar.old) (left_over moment.tick (C.Calendar.meaning calendar.old).waiting)) }
{
    if calm {
        work_changed::<F, C>(calendar, wiring, ports, drives, levels, planned, moment);
        return;
    }
    take_due::<F, C>(calendar, moment.tick, drives);
    *levels = settle::<F>(&wiring.net, ports, drives);
    plan::<F, C>(calendar, planned, &wiring.net, levels, moment);
}
