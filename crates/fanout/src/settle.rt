ghost use Rattle.std.specs.Prelude.{◌≡◌, ℕ, ◌<◌, true, false, length, set, slice_index_or, slice_set, Some};
ghost use Rattle.netlist.specs.Looked.{contents};
ghost use Rattle.number_set.specs.Members.{member};
ghost use Rattle.signal.specs.Signal.{resolved};
ghost use Rattle.tick.specs.Plans.{result_at};
ghost use Rattle.tick.specs.Settled.{drivers_of};
ghost use Rattle.fanout.specs.Seek.{net_at};

use crate::pin::Pin;
use crate::wiring::Wiring;
use logic::family::Family;
use logic::values::same;
use number_set::set::NumberSet;
use tick::settle::joined;

// Resolves each net of the set, and empties it; adds every gate that reads a net whose level
// changes to `gates`: a gate that does not stand there gives what it gave.
// Kept as it is: ports and drives stay two parameters: `work_changed` is lent them so, and a struct would hold borrows.
pub(crate) fn settle_touched<F: Family>(
    wiring: &Wiring,
    ports: &[F::Value; 1024],
    drives: &[F::Value; 1024],
    nets: &mut NumberSet,
    levels: &mut [F::Value; 1024],
    gates: &mut NumberSet,
)
    ensures long { length levels.new ≡ length levels.old }
    ensures resolves { (n : ℕ) → n < 1024 → member nets.old.words n ≡ true → slice_index_or levels.new n F.Family.logic.unset ≡ resolved F.Family.logic (drivers_of F.Family.logic (contents wiring.now.net) ports.now drives.now n) }
    ensures others { (n : ℕ) → n < 1024 → member nets.old.words n ≡ false → slice_index_or levels.new n F.Family.logic.unset ≡ slice_index_or levels.old n F.Family.logic.unset }
    ensures empties { (n : ℕ) → n < 1024 → member nets.new.words n ≡ false }
    ensures readers { (g : ℕ) → g < wiring.now.net.head.gates → member gates.new.words g ≡ false → result_at F.Family.logic (contents wiring.now.net) levels.new g ≡ result_at F.Family.logic (contents wiring.now.net) levels.old g }
{
    while let Some(n) = nets.first() {
        nets.set(n, false);
        settle_net::<F>(wiring, ports, drives, n, levels, gates);
    }
}

// One net, and the gates that read it if its level changes.
fn settle_net<F: Family>(
    wiring: &Wiring,
    ports: &[F::Value; 1024],
    drives: &[F::Value; 1024],
    n: u16,
    levels: &mut [F::Value; 1024],
    gates: &mut NumberSet,
)
    requires { n < 1024 }
    ensures long { length levels.old ≡ 1024 }
    ensures levels { levels.new ≡ slice_set levels.old n (resolved F.Family.logic (drivers_of F.Family.logic (contents wiring.now.net) ports.now drives.now n)) }
    ensures kept { (g : ℕ) → g < wiring.now.net.head.gates → member gates.new.words g ≡ false → member gates.old.words g ≡ false }
    ensures readers { (g : ℕ) → g < wiring.now.net.head.gates → member gates.new.words g ≡ false → result_at F.Family.logic (contents wiring.now.net) levels.new g ≡ result_at F.Family.logic (contents wiring.now.net) levels.old g }
{
    let v = resolve_net::<F>(wiring, ports, drives, n);
    if same::<F>(v, levels[n as usize]) {
        return;
    }
    levels[n as usize] = v;
    mark_readers(wiring, Pin::First, n, gates);
    mark_readers(wiring, Pin::Second, n, gates);
}

// What drives a net: its port, if it is one, then the gates with that output, in file order.
fn resolve_net<F: Family>(
    wiring: &Wiring,
    ports: &[F::Value; 1024],
    drives: &[F::Value; 1024],
    n: u16,
) -> F::Value
    requires { n < 1024 }
    ensures { result ≡ resolved F.Family.logic (drivers_of F.Family.logic (contents wiring.now.net) ports.now drives.now n) }
{
    let mut so_far = (n < wiring.net.head.ports).then_some(ports[n as usize]);
    for g in wiring.gates_at(Pin::Output, n) {
        so_far = Some(joined::<F>(so_far, drives[g as usize]));
    }
    so_far.unwrap_or(F::unset())
}

// Adds the gates that meet a net at the pin.
fn mark_readers(wiring: &Wiring, pin: Pin, n: u16, gates: &mut NumberSet)
    requires { n < 1024 }
    ensures kept { (g : ℕ) → g < 1024 → member gates.old.words g ≡ true → member gates.new.words g ≡ true }
    ensures readers { (g : ℕ) → g < wiring.now.net.head.gates → net_at (contents wiring.now.net) pin g ≡ Some n → member gates.new.words g ≡ true }
{
    for g in wiring.gates_at(pin, n) {
        gates.set(g, true);
    }
}
