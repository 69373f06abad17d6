ghost use Rattle.std.specs.Prelude.{◌≡◌, ℕ, ◌<◌, ◌≤◌, length, slice_index_or, slice_set};
ghost use Rattle.signal.specs.Circuit.{gate, operate};
ghost use Rattle.netlist.specs.Kinds.{kind_number};
ghost use Rattle.netlist.specs.Looked.{contents};
ghost use Rattle.tick.specs.Plans.{result_at, plans, put_changed};

use crate::moment::Moment;
use calendar::calendar::Calendar;
use logic::family::Family;
use netlist::gate::GateKind;
use netlist::place::Netlist;

// Each gate plans what it will drive a delay on, where that differs from what it planned last.
pub fn plan<F: Family, C: Calendar>(
    calendar: &mut C,
    planned: &mut [F::Value; 1024],
    net: &Netlist,
    levels: &[F::Value; 1024],
    moment: Moment,
)
    ensures long { length planned.new ≡ length planned.old }
    ensures planned { (g : ℕ) → g < net.now.head.gates → slice_index_or planned.new g F.Family.logic.unset ≡ result_at F.Family.logic (contents net.now) levels.now g }
    ensures rest { (g : ℕ) → net.now.head.gates ≤ g → slice_index_or planned.new g F.Family.logic.unset ≡ slice_index_or planned.old g F.Family.logic.unset }
    ensures calendar { C.Calendar.meaning calendar.new ≡ plans F.Family.logic (contents net.now) levels.now planned.old moment.tick net.now.head.gates (C.Calendar.meaning calendar.old) }
{
    for g in 0..net.head.gates {
        plan_gate::<F, C>(calendar, planned, net, levels, moment, g);
    }
}

// One gate of the netlist; a number past its gates is passed over.
// In line: it is short, and a tick at which all plan comes here for each gate.
#[inline(always)]
pub fn plan_gate<F: Family, C: Calendar>(
    calendar: &mut C,
    planned: &mut [F::Value; 1024],
    net: &Netlist,
    levels: &[F::Value; 1024],
    moment: Moment,
    g: u16,
)
    ensures long { length planned.old ≡ 1024 }
    ensures planned { g < net.now.head.gates → planned.new ≡ slice_set planned.old g (result_at F.Family.logic (contents net.now) levels.now g) }
    ensures calendar { g < net.now.head.gates → C.Calendar.meaning calendar.new ≡ put_changed F.Family.logic (gate (contents net.now) g).delay g moment.tick (result_at F.Family.logic (contents net.now) levels.now g) (slice_index_or planned.old g F.Family.logic.unset) (C.Calendar.meaning calendar.old) }
    ensures past { net.now.head.gates ≤ g → planned.new ≡ planned.old }
    ensures still { net.now.head.gates ≤ g → C.Calendar.meaning calendar.new ≡ C.Calendar.meaning calendar.old }
{
    if g >= net.head.gates {
        return;
    }
    let gate = net.gates[g as usize];
    let v = gate_result::<F>(gate.kind, levels[gate.a as usize], levels[gate.b as usize]);
    put_changed::<F, C>(calendar, gate.delay, g, moment, v, planned[g as usize]);
    planned[g as usize] = v;
}

// Puts v for a delay on, where it differs from what was planned last.
#[inline(always)]
fn put_changed<F: Family, C: Calendar>(
    calendar: &mut C,
    delay: u16,
    g: u16,
    moment: Moment,
    v: F::Value,
    was: F::Value,
)
    requires { delay ≤ 64 }
    ensures { C.Calendar.meaning calendar.new ≡ put_changed F.Family.logic delay g moment.tick v was (C.Calendar.meaning calendar.old) }
{
    let code = F::code(v);
    if code != F::code(was) {
        // A put that the calendar refuses changes nothing.
        let _ = calendar.put(moment.tick + u32::from(delay), g, code);
    }
}

// What a gate of the kind gives on its inputs.
pub fn gate_result<F: Family>(kind: GateKind, a: F::Value, b: F::Value) -> F::Value
    ensures { result ≡ operate F.Family.logic (kind_number kind) a b }
{
    operate::<F>(u8::from(kind), a, b)
}

// The same by a kind's number; one that no kind has gives unset.
// Kept as it is: a match over the kinds is a jump, which the machine guesses worse than these tests; a tick at which all plan took twice as long and more.
pub fn operate<F: Family>(kind: u8, a: F::Value, b: F::Value) -> F::Value
    ensures { result ≡ operate F.Family.logic kind a b }
{
    match kind {
        1 => F::and(a, a),
        2 => F::not(a),
        k if k >= 3 && k <= 5 => two_input::<F>(k, a, b),
        k if k >= 6 && k <= 8 => F::not(two_input::<F>(k - 3, a, b)),
        9 => F::tri(a, b),
        10 => F::pull_up(),
        11 => F::pull_down(),
        _ => F::unset(),
    }
}

// AND, OR and XOR, the kinds 3 to 5.
fn two_input<F: Family>(kind: u8, a: F::Value, b: F::Value) -> F::Value
    requires low { 3 ≤ kind }
    requires high { kind ≤ 5 }
    ensures { result ≡ operate F.Family.logic kind a b }
{
    match kind {
        3 => F::and(a, b),
        4 => F::or(a, b),
        _ => F::xor(a, b),
    }
}
