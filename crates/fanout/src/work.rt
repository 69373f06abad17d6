ghost use Rattle.std.specs.Prelude.{◌≡◌, ℕ, ◌<◌, ◌≤◌, length, slice_index_or};
ghost use Rattle.calendar.specs.Agenda.{Agenda, with_waiting};
ghost use Rattle.fanout.specs.Steady.{Steady};
ghost use Rattle.netlist.specs.Looked.{contents};
ghost use Rattle.signal.specs.Signal.{resolved};
ghost use Rattle.tick.specs.Due.{applied, left_over};
ghost use Rattle.tick.specs.Plans.{result_at, plans};
ghost use Rattle.tick.specs.Settled.{drivers_of};

use crate::due::take_touched;
use crate::plan::plan_marked;
use crate::settle::settle_touched;
use crate::wiring::Wiring;
use calendar::calendar::Calendar;
use logic::family::Family;
use number_set::set::NumberSet;
use tick::moment::Moment;

// Works a tick on what its entries reach: the gates that are due, the nets that they drive, and the
// gates that read a net whose level changes. From a steady state that comes to what working over all
// nets and all gates comes to: every net is resolved, every gate has planned, and what waits is as if
// each had planned in file order.
pub fn work_changed<F: Family, C: Calendar>(
    calendar: &mut C,
    wiring: &Wiring,
    ports: &[F::Value; 1024],
    drives: &mut [F::Value; 1024],
    levels: &mut [F::Value; 1024],
    planned: &mut [F::Value; 1024],
    moment: Moment,
)
    ensures drives { drives.new ≡ applied F.Family.logic moment.tick drives.old (C.Calendar.meaning calendar.old).waiting }
    ensures long { length levels.new ≡ length levels.old }
    ensures wide { length planned.new ≡ length planned.old }
    ensures levels { Steady F.Family.logic (contents wiring.now.net) ports.now drives.old levels.old planned.old → (n : ℕ) → n < 1024 → slice_index_or levels.new n F.Family.logic.unset ≡ resolved F.Family.logic (drivers_of F.Family.logic (contents wiring.now.net) ports.now drives.new n) }
    ensures planned { Steady F.Family.logic (contents wiring.now.net) ports.now drives.old levels.old planned.old → (g : ℕ) → g < wiring.now.net.head.gates → slice_index_or planned.new g F.Family.logic.unset ≡ result_at F.Family.logic (contents wiring.now.net) levels.new g }
    ensures rest { (g : ℕ) → wiring.now.net.head.gates ≤ g → slice_index_or planned.new g F.Family.logic.unset ≡ slice_index_or planned.old g F.Family.logic.unset }
    ensures calendar { Steady F.Family.logic (contents wiring.now.net) ports.now drives.old levels.old planned.old → C.Calendar.meaning calendar.new ≡ plans F.Family.logic (contents wiring.now.net) levels.new planned.old moment.tick wiring.now.net.head.gates (with_waiting (C.Calendar.meaning calendar.old) (left_over moment.tick (C.Calendar.meaning calendar.old).waiting)) }
{
    let mut nets = NumberSet::new();
    take_touched::<F, C>(calendar, moment.tick, drives, wiring, &mut nets);
    let mut gates = NumberSet::new();
    settle_touched::<F>(wiring, ports, drives, &mut nets, levels, &mut gates);
    plan_marked::<F, C>(calendar, planned, wiring, levels, moment, &mut gates);
}
