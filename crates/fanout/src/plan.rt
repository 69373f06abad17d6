ghost use Rattle.std.specs.Prelude.{◌≡◌, ℕ, ◌<◌, ◌≤◌, length, slice_index_or};
ghost use Rattle.netlist.specs.Looked.{contents};
ghost use Rattle.tick.specs.Plans.{result_at, plans};
ghost use Rattle.fanout.specs.Seek.{Idle};

use crate::wiring::Wiring;
use calendar::calendar::Calendar;
use logic::family::Family;
use number_set::set::NumberSet;
use tick::moment::Moment;
use tick::plan::plan_gate;

// Each gate of the set plans, in file order. Where every other gate has planned what it gives, that
// is as if all had planned.
pub(crate) fn plan_marked<F: Family, C: Calendar>(
    calendar: &mut C,
    planned: &mut [F::Value; 1024],
    wiring: &Wiring,
    levels: &[F::Value; 1024],
    moment: Moment,
    gates: &mut NumberSet,
)
    ensures long { length planned.new ≡ length planned.old }
    ensures planned { Idle F.Family.logic (contents wiring.now.net) levels.now planned.old gates.old.words → (g : ℕ) → g < wiring.now.net.head.gates → slice_index_or planned.new g F.Family.logic.unset ≡ result_at F.Family.logic (contents wiring.now.net) levels.now g }
    ensures rest { (g : ℕ) → wiring.now.net.head.gates ≤ g → slice_index_or planned.new g F.Family.logic.unset ≡ slice_index_or planned.old g F.Family.logic.unset }
    ensures calendar { Idle F.Family.logic (contents wiring.now.net) levels.now planned.old gates.old.words → C.Calendar.meaning calendar.new ≡ plans F.Family.logic (contents wiring.now.net) levels.now planned.old moment.tick wiring.now.net.head.gates (C.Calendar.meaning calendar.old) }
{
    while let Some(g) = gates.first() {
        gates.set(g, false);
        plan_gate::<F, C>(calendar, planned, &wiring.net, levels, moment, g);
    }
}
