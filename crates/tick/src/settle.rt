ghost use Rattle.std.specs.Prelude.{◌≡◌, ℕ, ◌<◌, length, slice_index_or};
ghost use Rattle.signal.specs.Signal.{resolved};
ghost use Rattle.netlist.specs.Looked.{contents};
ghost use Rattle.tick.specs.Settled.{drivers_of, joined};

use logic::family::Family;
use netlist::place::Netlist;

// Resolves every net: its port, if it is one, then the gates with that output, in file order.
pub fn settle<F: Family>(
    net: &Netlist,
    ports: &[F::Value; 1024],
    drives: &[F::Value; 1024],
) -> [F::Value; 1024]
    ensures long { length result ≡ 1024 }
    ensures resolves { (n : ℕ) → n < 1024 → slice_index_or result n F.Family.logic.unset ≡ resolved F.Family.logic (drivers_of F.Family.logic (contents net.now) ports.now drives.now n) }
{
    // Kept as it is: a mark beside each level, and no table of options: nothing shows that 1,024 options of a value fit in memory.
    let mut levels = [F::unset(); 1024];
    let mut marks = [false; 1024];
    let count = net.head.ports as usize;
    levels[..count].copy_from_slice(&ports[..count]);
    marks[..count].fill(true);
    for (g, gate) in net.gates[..net.head.gates as usize].iter().enumerate() {
        let n = gate.out as usize;
        levels[n] = joined::<F>(marks[n].then_some(levels[n]), drives[g]);
        marks[n] = true;
    }
    levels
}

// One driver more of a net: it drives alone, or with those so far.
#[inline(always)]
pub fn joined<F: Family>(so_far: Option<F::Value>, v: F::Value) -> F::Value
    ensures { result ≡ joined F.Family.logic so_far v }
{
    match so_far {
        None => v,
        Some(was) => F::resolve(was, v),
    }
}
