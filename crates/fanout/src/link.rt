ghost use Rattle.std.specs.Prelude.{◌≡◌, ℕ, ◌<◌, length, IfSome};
ghost use Rattle.netlist.specs.Looked.{contents};
ghost use Rattle.fanout.specs.Seek.{Firsts, Nexts, gates_at, pin_net};

use crate::gates::{GatesAt, named};
use crate::pin::Pin;
use crate::wiring::{Chain, Wiring};
use netlist::gate::Gate;
use netlist::place::Netlist;

// The net at a pin of a gate, if its kind uses that pin.
fn net_at(gate: Gate, pin: Pin) -> Option<u16>
    requires first { gate.a < 1024 }
    requires second { gate.b < 1024 }
    requires output { gate.out < 1024 }
    ensures net { result ≡ pin_net pin gate }
    ensures small { IfSome result (λ n. n < 1024) }
{
    match pin {
        Pin::Output => Some(gate.out),
        Pin::First => gate.kind.reads_a().then_some(gate.a),
        Pin::Second => gate.kind.reads_b().then_some(gate.b),
    }
}

// Goes over the gates from the last, so that each chain has the file's order.
fn link(net: &Netlist, pin: Pin) -> Chain
    ensures heads { Firsts (contents net.now) pin result.first }
    ensures links { Nexts (contents net.now) pin result.next }
{
    let mut first = [1024u16; 1025];
    let mut next = [1024u16; 1024];
    for g in (0..net.head.gates).rev() {
        let n = net_at(net.gates[g as usize], pin).unwrap_or(1024) as usize;
        next[g as usize] = first[n];
        first[n] = g;
    }
    Chain { first, next }
}

impl Wiring {
    ghost use Rattle.fanout.specs.Left.{left};

    // Chains the gates of a netlist.
    pub fn new(net: Netlist) -> Wiring
        ensures { result.net ≡ net }
    {
        let outputs = link(&net, Pin::Output);
        let firsts = link(&net, Pin::First);
        let seconds = link(&net, Pin::Second);
        Wiring {
            net,
            outputs,
            firsts,
            seconds,
        }
    }

    // The chains of a pin.
    pub(crate) fn chain(&self, pin: Pin) -> &Chain
        ensures heads { Firsts (contents self.now.net) pin result.now.first }
        ensures links { Nexts (contents self.now.net) pin result.now.next }
    {
        match pin {
            Pin::Output => &self.outputs,
            Pin::First => &self.firsts,
            Pin::Second => &self.seconds,
        }
    }

    // The gates that meet a net at the pin, in file order.
    pub(crate) fn gates_at(&self, pin: Pin, n: u16) -> GatesAt<'_>
        requires { n < 1024 }
        ensures { left result ≡ gates_at (contents self.now.net) pin n }
    {
        GatesAt {
            wiring: self,
            pin,
            at: named(self.chain(pin).first[n as usize]),
        }
    }
}
