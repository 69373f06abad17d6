ghost use Rattle.std.specs.Prelude.{◌≡◌, ◌+◌, ◌≤◌, length};
ghost use Rattle.std.specs.List.{flat_map};
ghost use Rattle.signal.specs.Calls.{change_bytes};
ghost use Rattle.netlist.specs.Looked.{contents};
ghost use Rattle.tick.specs.Laid.{Wrote};
ghost use Rattle.tick.specs.Reported.{with_room, change_from, made};

use logic::family::Family;
use netlist::place::Netlist;

// Writes a record for each watched net whose level differs, and answers the place behind them; nothing where there is no room for
// a record of each watched net.
// Kept as it is: `out` and `at` stay two parameters of this public call; of the private functions two alone take both.
pub fn report<F: Family>(
    net: &Netlist,
    old: &[F::Value; 1024],
    new: &[F::Value; 1024],
    tick: u32,
    out: &mut [u8],
    at: usize,
) -> usize
    ensures { Wrote out.old at (flat_map change_bytes (with_room F.Family.logic (contents net.now) old.now new.now tick at (length out.old))) result out.new }
{
    let watches = &net.watches[..net.head.watches as usize];
    // Some net is watched, so a place past the end has no room either.
    if out.len().saturating_sub(at) < 8 * watches.len() {
        return at;
    }
    let mut end = at;
    for n in watches {
        let i = *n as usize;
        end = report_net::<F>(old[i], new[i], tick, *n, out, end);
    }
    end
}

// Writes the record of a net whose level differs.
#[tactic(auto, using(crate::proofs::Over::wrote_none))]
fn report_net<F: Family>(
    old: F::Value,
    new: F::Value,
    tick: u32,
    n: u16,
    out: &mut [u8],
    at: usize,
) -> usize
    requires { at + 8 ≤ length out.old }
    ensures { Wrote out.old at (flat_map change_bytes (change_from F.Family.logic old new tick n)) result out.new }
{
    let code = F::code(new);
    if code == F::code(old) {
        return at;
    }
    put_record(out, at, tick, n, code)
}

fn put_record(out: &mut [u8], at: usize, tick: u32, net: u16, code: u16) -> usize
    requires { at + 8 ≤ length out.old }
    ensures { Wrote out.old at (change_bytes (made tick net code)) result out.new }
{
    out[at..at + 8].copy_from_slice(&record(tick, net, code));
    at + 8
}

fn record(tick: u32, net: u16, code: u16) -> [u8; 8]
    ensures { result ≡ change_bytes (made tick net code) }
{
    let [a, b, c, d] = tick.to_be_bytes();
    let [e, f] = net.to_be_bytes();
    let [g, h] = code.to_be_bytes();
    [a, b, c, d, e, f, g, h]
}
