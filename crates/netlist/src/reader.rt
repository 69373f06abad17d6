ghost use Rattle.std.specs.Prelude.{◌≡◌, ◌+◌, ◌*◌, ◌<◌, ◌≤◌, length, Some, None, MatchResult, ℕ};
ghost use Rattle.netlist.specs.Parts.{blank, table, is_output};
ghost use Rattle.netlist.specs.File.{word, gate_no, gates_of, watch_at, watches_of};
ghost use Rattle.netlist.specs.Checks.{head_of, head_fault, gate_no_fault, gates_fault, watch_fault, watches_fault, nets_fault};
ghost use Rattle.netlist.specs.Answers.{answer};
ghost use Rattle.netlist.specs.Tables.{FilledTo, StoppedBy};

use crate::fault::NetlistFault;
use crate::gate::{Gate, GateKind, Head};

fn be16(s: &[u8], at: usize) -> u16
    requires { at + 1 < length s.now }
    ensures { result ≡ word s.now at }
{
    u16::from_be_bytes([s[at], s[at + 1]])
}

fn read_head(bytes: &[u8]) -> Result<Head, NetlistFault>
    ensures { result ≡ answer (head_fault bytes.now) (head_of bytes.now) }
{
    let n = bytes.len();
    if n < 13 {
        return Err(NetlistFault::Short(n));
    }
    if !bytes.starts_with(b"NLB") {
        return Err(NetlistFault::Mark(0));
    }
    if be16(bytes, 3) != 1 {
        return Err(NetlistFault::Version(3));
    }
    let nets = be16(bytes, 5);
    let ports = be16(bytes, 7);
    let gates = be16(bytes, 9);
    let watches = be16(bytes, 11);
    if nets == 0 || nets > 1024 {
        return Err(NetlistFault::Count(5));
    }
    if ports > nets {
        return Err(NetlistFault::Count(7));
    }
    if gates > 1024 {
        return Err(NetlistFault::Count(9));
    }
    if watches == 0 || watches > nets {
        return Err(NetlistFault::Count(11));
    }
    if n != 13 + 9 * gates as usize + 2 * watches as usize {
        return Err(NetlistFault::Length(n));
    }
    Ok(Head {
        nets,
        ports,
        gates,
        watches,
    })
}

// A file whose head was read, and whose bytes are as many as its counts ask for.
#[derive(Clone, Copy)]
pub(crate) struct File<'a> {
    bytes: &'a [u8],
    pub(crate) head: Head,
    ghost read: { head ≡ head_of bytes.now },
    ghost gates: { head.gates ≤ 1024 },
    ghost watches: { head.watches ≤ 1024 },
    ghost whole: { 13 + 9 * head.gates + 2 * head.watches ≡ length bytes.now },
}

impl<'a> File<'a> {
    pub(crate) fn open(bytes: &'a [u8]) -> Result<File<'a>, NetlistFault>
        ensures { MatchResult result (λ file. (head_fault bytes.now ≡ None) × (file.bytes.now ≡ bytes.now)) (λ e. head_fault bytes.now ≡ Some e) }
    {
        let head = read_head(bytes)?;
        Ok(File { bytes, head })
    }

    // Gate g, by its number in the file.
    fn gate(&self, g: usize) -> Result<Gate, NetlistFault>
        requires { g < self.now.head.gates }
        ensures { result ≡ answer (gate_no_fault self.now.bytes.now g) (gate_no self.now.bytes.now g) }
    {
        let at = 13 + 9 * g;
        let nets = self.head.nets;
        let Ok(kind) = GateKind::try_from(self.bytes[at]) else {
            return Err(NetlistFault::Kind(at));
        };
        let a = be16(self.bytes, at + 1);
        let b = be16(self.bytes, at + 3);
        let out = be16(self.bytes, at + 5);
        let delay = be16(self.bytes, at + 7);
        let unused_set = (!kind.reads_a() && a != 0) || (!kind.reads_b() && b != 0);
        if a >= nets || b >= nets || out >= nets || unused_set {
            return Err(NetlistFault::Net(at));
        }
        if delay == 0 || delay > 64 {
            return Err(NetlistFault::Delay(at));
        }
        Ok(Gate {
            kind,
            a,
            b,
            out,
            delay,
        })
    }

    // Kept as it is: the place's plain inner table, filled one record at a time.
    pub(crate) fn gates(&self) -> Result<[Gate; 1024], NetlistFault>
        ensures { result ≡ answer (gates_fault self.now.bytes.now) (table blank (gates_of self.now.bytes.now)) }
    {
        let mut gates = [Gate::BLANK; 1024];
        fill_table(&mut gates[..self.head.gates as usize], |g| self.gate(g))?;
        Ok(gates)
    }

    // Watch i, which is below the nets and above the watch before it.
    fn watch(&self, i: usize) -> Result<u16, NetlistFault>
        requires { i < self.now.head.watches }
        ensures { result ≡ answer (watch_fault self.now.bytes.now i) (watch_at self.now.bytes.now i) }
    {
        let at = 13 + 9 * self.head.gates as usize + 2 * i;
        let net = be16(self.bytes, at);
        if net >= self.head.nets || (i > 0 && net <= be16(self.bytes, at - 2)) {
            return Err(NetlistFault::Watch(at));
        }
        Ok(net)
    }

    // Kept as it is: the place's plain inner table, filled one watch at a time.
    pub(crate) fn watches(&self) -> Result<[u16; 1024], NetlistFault>
        ensures { result ≡ answer (watches_fault self.now.bytes.now) (table 0 (watches_of self.now.bytes.now)) }
    {
        let mut watches = [0; 1024];
        fill_table(
            &mut watches[..self.head.watches as usize],
            |i| self.watch(i),
        )?;
        Ok(watches)
    }
}

// Fills a table in order, or stops at the first entry that is refused.
fn fill_table<T: Copy, F: Fn(usize) -> Result<T, NetlistFault>>(
    table: &mut [T],
    entry: F,
) -> Result<(), NetlistFault>
    requires { (i : ℕ) → i < length table.old → F.pre entry i }
    ensures long { length table.new ≡ length table.old }
    ensures fills { MatchResult result (λ _. FilledTo (F.post entry) table.new (length table.new)) (StoppedBy (F.post entry) table.new) }
{
    for (i, place) in table.iter_mut().enumerate() {
        *place = entry(i)?;
    }
    Ok(())
}

fn is_output(gates: &[Gate], net: u16) -> bool
    ensures { result ≡ is_output gates.now net }
{
    gates.iter().any(|g| g.out == net)
}

pub(crate) fn all_driven(gates: &[Gate], ports: u16, nets: u16) -> Result<(), NetlistFault>
    ensures { result ≡ answer (nets_fault ports gates.now nets) tt }
{
    match (ports..nets).find(|&n| !is_output(gates, n)) {
        Some(net) => Err(NetlistFault::Undriven(net as usize)),
        None => Ok(()),
    }
}
