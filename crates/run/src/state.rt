// A run of a board: the fields of its state, and the faults of its calls.
ghost use Rattle.std.specs.Prelude.{◌*◌, ◌≤◌};

use calendar::calendar::Calendar;
use fanout::wiring::Wiring;
use logic::family::Family;

pub mod calls;
pub mod compare;
pub mod fault;
mod work;

#[derive(Drop)]
pub struct Run<F: Family, C: Calendar> {
    calendar: C,
    // the netlist, its gates chained by the nets that they meet
    wiring: Wiring,
    // whether the calendar was fit at opening
    fit: bool,
    // a tick is complete, and no port was driven since
    calm: bool,
    // Kept as it is: four tables in fixed memory, lent one by one: each public call of tick and fanout takes those it needs.
    // what each port carries from the next tick on
    ports: [F::Value; 1024],
    // what each gate drives at the last completed tick
    drives: [F::Value; 1024],
    // what each gate planned last, a delay ahead
    planned: [F::Value; 1024],
    // what each net carries at the last completed tick
    levels: [F::Value; 1024],
    ticks: u32,
    records: u64,
    ghost early: { ticks ≤ 16777216 },
    ghost few: { records ≤ ticks * 1024 },
}

// Why a call was refused; each case holds the completed ticks.
#[derive(Clone, Copy, PartialEq, Eq, Debug)]
pub enum RunFault {
    UnfitCalendar(u32),
    NoSuchInput(u32),
    NoSuchCode(u32),
    ZeroTicks(u32),
    TooManyTicks(u32),
    ShortBuffer(u32),
    NoSuchNet(u32),
    WrongTime(u32),
}
