// The simulator: every net at every tick, from the port values and the start levels.
use crate::board::{Board, Gate};
use crate::family::Family;
use crate::kind::Kind;
use crate::refusal::{Failure, Fault, Refusal};
use std::alloc::{AllocError, Global};

// No run has more ticks than this.
const LAST: u32 = 16_777_216;

// A gate, its kind if its number has one, and its start level.
#[derive(Clone, Copy)]
struct Driver {
    gate: Gate,
    kind: Option<Kind>,
    start: u32,
}

// A change of a watched net, as an advance reports it.
#[derive(Clone, Copy, Debug, PartialEq, Eq)]
pub struct Record {
    pub tick: u32,
    pub net: u32,
    pub code: u32,
}

#[derive(Drop)]
pub struct Simulator {
    heap: Global,
    family: Family,
    // whether the bench would have had a fit calendar
    fit: bool,
    nets: u32,
    watches: Vec<u32>,
    drivers: Vec<Driver>,
    // what each port was last driven with
    ports: Vec<u32>,
    // the level of each net, for each tick that is complete
    levels: Vec<Vec<u32>>,
    records: u64,
}

// The bytes of a trace: of each record a 32-bit tick, a 16-bit net and a 16-bit code, the high byte first.
pub fn trace(heap: Global, records: &[Record]) -> Result<Vec<u8>, AllocError> {
    let mut bytes = Vec::new(heap);
    for record in records {
        bytes.extend_from_slice(&record.tick.to_be_bytes())?;
        bytes.extend_from_slice(&record.net.to_be_bytes()[2..])?;
        bytes.extend_from_slice(&record.code.to_be_bytes()[2..])?;
    }
    Ok(bytes)
}

impl Simulator {
    pub fn new(
        heap: Global,
        family: Family,
        board: Board,
        fit: bool,
    ) -> Result<Simulator, AllocError> {
        let start = family.unset();
        let drivers = board
            .gates
            .iter()
            .map(|gate| Driver {
                gate: *gate,
                kind: Kind::try_from(gate.kind).ok(),
                start,
            })
            .collect(heap)?;
        Ok(Simulator {
            heap,
            family,
            fit,
            nets: board.nets,
            watches: board.watches,
            drivers,
            ports: vec![in heap; start; board.ports as usize]?,
            levels: Vec::new(heap),
            records: 0,
        })
    }

    // The ticks that are complete.
    pub fn ticks(&self) -> u32 {
        u32::try_from(self.levels.len()).unwrap_or(u32::MAX)
    }

    // The records of all advances.
    pub fn records(&self) -> u64 {
        self.records
    }

    pub fn family(&self) -> Family {
        self.family
    }

    // The level of a net at a tick; unset where the tick is not complete, and 0 past the nets.
    fn level(&self, net: u32, tick: usize) -> u32 {
        self.levels.get(tick).map_or(self.family.unset(), |row| {
            row.get(net as usize).copied().unwrap_or(0)
        })
    }

    // What a gate drives at a tick: its start level until its delay has passed, then its
    // operation on what its inputs were, the delay ago.
    fn output(&self, driver: &Driver, tick: usize) -> u32 {
        let Gate { a, b, delay, .. } = driver.gate;
        let seen = tick.checked_sub(delay as usize);
        seen.map_or(driver.start, |then| {
            let (a, b) = (self.level(a, then), self.level(b, then));
            let kind = driver.kind;
            kind.map_or(self.family.unset(), |kind| self.family.operate(kind, a, b))
        })
    }

    // What a net is at a tick whose inputs are known: its drivers joined from the left, the port
    // first where it is one, then the gates in the order of the file.
    fn settled(&self, net: u32, tick: usize) -> u32 {
        let port = self.ports.get(net as usize).copied();
        let gates = self
            .drivers
            .iter()
            .filter(|driver| driver.gate.out == net)
            .map(|driver| self.output(driver, tick));
        port.into_iter()
            .chain(gates)
            .reduce(|level, next| self.family.resolve(level, next))
            .unwrap_or(0)
    }

    // Completes one tick.
    fn step(&mut self) -> Result<(), AllocError> {
        let tick = self.levels.len();
        let row = (0..self.nets)
            .map(|net| self.settled(net, tick))
            .collect(self.heap)?;
        self.levels.push(row)?;
        Ok(())
    }

    // Reports each watched net that a tick changed. Before the first tick every net is unset.
    fn report(&self, tick: u32, records: &mut Vec<Record>) -> Result<(), AllocError> {
        for net in self.watches.iter() {
            let code = self.level(*net, tick as usize);
            let earlier = tick.checked_sub(1);
            let before = earlier.map_or(self.family.unset(), |earlier| {
                self.level(*net, earlier as usize)
            });
            if code != before {
                records.push(Record {
                    tick,
                    net: *net,
                    code,
                })?;
            }
        }
        Ok(())
    }

    // Sets a gate's start level.
    pub fn wake(&mut self, gate: u32, code: u32) -> Result<(), Fault> {
        let ticks = u64::from(self.ticks());
        Refusal::UnfitCalendar.unless(self.fit, ticks)?;
        let Some(driver) = self.drivers.get_mut(gate as usize) else {
            return Err(Refusal::NoSuchInput.at(ticks));
        };
        Refusal::NoValue.unless(self.family.has_value(code), ticks)?;
        Refusal::Untimely.unless(ticks == 0, ticks)?;
        driver.start = code;
        Ok(())
    }

    // Sets a port's value for the ticks to come.
    pub fn drive(&mut self, port: u32, code: u32) -> Result<(), Fault> {
        let ticks = u64::from(self.ticks());
        Refusal::UnfitCalendar.unless(self.fit, ticks)?;
        let Some(driven) = self.ports.get_mut(port as usize) else {
            return Err(Refusal::NoSuchInput.at(ticks));
        };
        Refusal::NoValue.unless(self.family.has_value(code), ticks)?;
        *driven = code;
        Ok(())
    }

    // Whether records leave room in a trace buffer of so many bytes for one of each watched net.
    fn has_room(&self, room: usize, records: &[Record]) -> bool {
        let most = records.len().saturating_add(self.watches.len());
        most.saturating_mul(8) <= room
    }

    // Completes `count` ticks, fewer where the room for records runs short, and answers how many
    // and their records.
    pub fn advance(&mut self, count: u32, room: usize) -> Result<(u32, Vec<Record>), Failure> {
        let start = self.ticks();
        let place = u64::from(start);
        Refusal::UnfitCalendar.unless(self.fit, place)?;
        Refusal::NoTicks.unless(count > 0, place)?;
        Refusal::PastTheLast.unless(place + u64::from(count) <= u64::from(LAST), place)?;
        Refusal::SmallTrace.unless(self.has_room(room, &[]), place)?;
        let mut records = Vec::new(self.heap);
        for _ in 0..count {
            if !self.has_room(room, records.as_slice()) {
                break;
            }
            let tick = self.ticks();
            let before = records.len();
            self.step()?;
            self.report(tick, &mut records)?;
            let new = records.len().saturating_sub(before);
            self.records = self.records.saturating_add(new as u64);
        }
        Ok((self.ticks().saturating_sub(start), records))
    }

    // Whether some gate that looked ahead to this tick drives another level there than the tick before.
    fn changes_at(&self, tick: usize, last: usize) -> bool {
        let earlier = tick.saturating_sub(1);
        self.drivers.iter().any(|driver| {
            let seen = tick <= last.saturating_add(driver.gate.delay as usize);
            seen && self.output(driver, tick) != self.output(driver, earlier)
        })
    }

    // The next tick at which a gate is known to change, its inputs being known up to the last
    // complete tick. No gate looks further ahead than 64 ticks.
    pub fn next_change(&self) -> Option<u32> {
        let last = self.levels.len().checked_sub(1)?;
        let mut ahead = last.saturating_add(1)..last.saturating_add(65);
        let tick = ahead.find(|tick| self.changes_at(*tick, last))?;
        u32::try_from(tick).ok()
    }

    // A net's level at the last complete tick, and whether it leaves nothing open.
    pub fn read(&self, net: u32) -> Result<(u32, bool), Fault> {
        let ticks = u64::from(self.ticks());
        Refusal::UnfitCalendar.unless(self.fit, ticks)?;
        Refusal::NoSuchNet.unless(net < self.nets, ticks)?;
        let Some(last) = self.levels.len().checked_sub(1) else {
            return Err(Refusal::Untimely.at(ticks));
        };
        let level = self.level(net, last);
        Ok((level, self.family.is_definite(level)))
    }
}
