// Well-formed boards: loops, several drivers a net, tri-states, pulls, and ports that gates drive too.
use crate::random::Random;
use std::alloc::{AllocError, Global};
use vectors::laid;
use vectors::laid::{Gate, Kind};

// A netlist file, and the numbers in it that a script needs.
#[derive(Drop)]
pub struct Board {
    pub bytes: Vec<u8>,
    pub nets: u32,
    pub ports: u32,
    pub gates: u32,
    pub watches: u32,
    // the sum of the gates' delays
    pub delays: u32,
}

// What a board is made of mostly.
#[derive(Clone, Copy)]
struct Style {
    kinds: &'static [Kind],
    longest: u32,
}

const ANY: &[Kind] = &Kind::ALL;

const RESTLESS: &[Kind] = &[
    Kind::Not,
    Kind::Not,
    Kind::Not,
    Kind::Nand,
    Kind::Nor,
    Kind::Xnor,
    Kind::Xor,
    Kind::And,
    Kind::Or,
    Kind::Buffer,
];

const BUSES: &[Kind] = &[
    Kind::Tri,
    Kind::Tri,
    Kind::Tri,
    Kind::Tri,
    Kind::PullUp,
    Kind::PullDown,
    Kind::Not,
    Kind::And,
    Kind::Buffer,
    Kind::Xor,
];

fn any_style(random: &mut Random) -> Style {
    let (kinds, longest) = match random.below(5) {
        0 => (ANY, 64),
        1 => (RESTLESS, 2),
        2 => (RESTLESS, 9),
        3 => (BUSES, 5),
        _ => (ANY, 6),
    };
    Style { kinds, longest }
}

// Now and then the longest delay there is.
fn delay(random: &mut Random, style: Style) -> u16 {
    if random.once_in(24) {
        64
    } else {
        narrow(random.between(1, style.longest))
    }
}

// Nets and delays are small; a file has 16 bits for each.
fn narrow(n: u32) -> u16 {
    u16::try_from(n).unwrap_or(u16::MAX)
}

// A gate that drives a net; inputs that its kind does not use are 0.
fn any_gate(random: &mut Random, style: Style, nets: u32, out: u16) -> Gate {
    let kind = random.any_of(style.kinds).unwrap_or(Kind::Buffer);
    let a = if kind.reads_a() {
        random.below(nets)
    } else {
        0
    };
    let b = if kind.reads_b() {
        random.below(nets)
    } else {
        0
    };
    Gate {
        kind,
        a: narrow(a),
        b: narrow(b),
        out,
        delay: delay(random, style),
    }
}

// Each net behind the ports once, then any nets again: these are the gates' outputs.
fn outputs(
    heap: Global,
    random: &mut Random,
    nets: u32,
    ports: u32,
    more: u32,
) -> Result<Vec<u16>, AllocError> {
    (ports..nets)
        .chain((0..more).map(|_| random.below(nets)))
        .map(narrow)
        .collect(heap)
}

// Swaps each element with one at or before it.
// Kept as it is: a swap in place needs both places, so the loop counts them.
fn shuffle(random: &mut Random, list: &mut [u16]) {
    for i in 0..list.len() {
        let n = u32::try_from(i).unwrap_or(0).saturating_add(1);
        let j = random.below(n) as usize;
        if j < list.len() {
            list.swap(i, j);
        }
    }
}

// About a `share`th of the nets, in order, and one at least.
fn watch_list(
    heap: Global,
    random: &mut Random,
    nets: u32,
    share: u32,
) -> Result<Vec<u16>, AllocError> {
    let mut list: Vec<u16> = (0..nets)
        .filter(|_| random.once_in(share))
        .map(narrow)
        .collect(heap)?;
    if list.is_empty() {
        list.push(narrow(random.below(nets)))?;
    }
    Ok(list)
}

// How many gates share a net with another driver. With many of them most nets end in conflict, so
// half of the boards have few.
fn extra(random: &mut Random, nets: u32) -> u32 {
    if random.once_in(2) {
        random.below(3)
    } else {
        random.below(nets.saturating_add(4))
    }
}

fn size(random: &mut Random) -> u32 {
    if random.once_in(40) {
        random.between(40, 120)
    } else {
        random.between(1, 16)
    }
}

fn length<T>(list: &Vec<T>) -> u32 {
    u32::try_from(list.len()).unwrap_or(0)
}

impl Board {
    fn laid_out(
        heap: Global,
        nets: u32,
        ports: u32,
        gates: &Vec<Gate>,
        watches: &Vec<u16>,
    ) -> Result<Board, AllocError> {
        let late = gates.iter().map(|gate| u32::from(gate.delay));
        Ok(Board {
            bytes: laid::file(
                heap,
                narrow(nets),
                narrow(ports),
                gates.as_slice(),
                watches.as_slice(),
            )?,
            nets,
            ports,
            gates: length(gates),
            watches: length(watches),
            delays: late.fold(0, |sum: u32, delay| sum.saturating_add(delay)),
        })
    }
}

// One gate that drives its own input: it never rests, so an advance of any length ends when the
// trace buffer is full.
pub fn restless(heap: Global) -> Result<Board, AllocError> {
    let gate = Gate {
        kind: Kind::Not,
        a: 0,
        b: 0,
        out: 0,
        delay: 1,
    };
    Board::laid_out(heap, 1, 0, &vec![in heap; gate]?, &vec![in heap; 0]?)
}

// A well-formed board.
pub fn made(heap: Global, random: &mut Random) -> Result<Board, AllocError> {
    let style = any_style(random);
    let nets = size(random);
    let ports = random
        .below(nets.saturating_add(1))
        .min(random.between(1, 8));
    let more = extra(random, nets);
    let mut outs = outputs(heap, random, nets, ports, more)?;
    shuffle(random, outs.as_mut_slice());
    let share = random.between(1, 3);
    let watches = watch_list(heap, random, nets, share)?;
    let gates = outs
        .iter()
        .map(|net| any_gate(random, style, nets, *net))
        .collect(heap)?;
    Board::laid_out(heap, nets, ports, &gates, &watches)
}
