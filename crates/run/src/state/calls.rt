ghost use Rattle.std.specs.Prelude.{◌≡◌, ◌+◌, ◌*◌, ◌<◌, ◌≤◌, true, not, ◌&&◌, length, slice_index_or};
ghost use Rattle.tick.specs.Due.{is_first};
ghost use Rattle.netlist.specs.Looked.{contents};
ghost use Rattle.run.specs.Calls.{Completed, Opened, Waked, Driven, Reads, Finished, Advanced, KeepsTime, fit_for, readied, valued, shown};

use super::work::work;
use super::{Run, RunFault};
use calendar::calendar::Calendar;
use fanout::wiring::Wiring;
use logic::family::Family;
use netlist::place::Netlist;
use tick::due::is_due;
use tick::moment::Moment;
use tick::report::report;

impl<F: Family, C: Calendar> Run<F, C> {
    // Completes one tick, writes its records from `at` on, and answers the place behind them.
    fn tick(&mut self, out: &mut [u8], at: usize) -> usize
        requires early { self.old.ticks < 16777216 }
        requires room { at + 8 * self.old.wiring.net.head.watches ≤ length out.old }
        ensures { Completed F.Family C.Calendar self.old out.old at self.new out.new result }
    {
        // A turn that is refused changes nothing; of a calendar that was fit at opening none is. A still tick has a turn of its
        // own: it is the way that most ticks go, and with one turn for both it took 1.4 times as long over a heap.
        if self.still() {
            let _ = self.calendar.turn(self.ticks);
            self.ticks += 1;
            return at;
        }
        let moment = Moment { tick: self.ticks };
        let _ = self.calendar.turn(moment.tick);
        let mut levels = self.levels;
        work::<F, C>(
            self.calm,
            &mut self.calendar,
            &self.wiring,
            &self.ports,
            &mut self.drives,
            &mut levels,
            &mut self.planned,
            moment,
        );
        let end = report::<F>(&self.wiring.net, &self.levels, &levels, self.ticks, out, at);
        self.levels = levels;
        self.calm = true;
        self.records += ((end - at) / 8) as u64;
        self.ticks += 1;
        end
    }

    // Whether nothing changes at the next tick: one is complete, no port was driven since, and no entry is due.
    fn still(&self) -> bool
        ensures { result ≡ (self.now.calm && not (is_first self.now.ticks (C.Calendar.meaning self.now.calendar).waiting)) }
    {
        self.calm && !is_due(&self.calendar, self.ticks)
    }

    // Opens a run; no tick is complete, and every level is unset. It never refuses: on an unfit calendar every later call is refused.
    pub fn open(net: Netlist, calendar: C) -> Run<F, C>
        ensures { Opened F.Family C.Calendar net calendar result }
    {
        let fit = suits(&net, &calendar);
        let wiring = Wiring::new(net);
        Run {
            calendar,
            wiring,
            fit,
            calm: false,
            ports: [F::unset(); 1024],
            drives: [F::unset(); 1024],
            planned: [F::unset(); 1024],
            levels: [F::unset(); 1024],
            ticks: 0,
            records: 0,
        }
    }

    // Sets the start level of a gate; refused with 16, 17, 18 or 23.
    pub fn wake(&mut self, gate: u16, code: u16) -> Result<(), RunFault>
        ensures { Waked F.Family C.Calendar self.old gate code self.new result }
    {
        self.ready()?;
        if gate >= self.wiring.net.head.gates {
            return Err(RunFault::NoSuchInput(self.ticks));
        }
        let v = self.value(code)?;
        if self.ticks != 0 {
            return Err(RunFault::WrongTime(self.ticks));
        }
        self.drives[gate as usize] = v;
        self.planned[gate as usize] = v;
        Ok(())
    }

    // Sets a port's value from the next tick on; refused with 16, 17 or 18.
    pub fn drive(&mut self, port: u16, code: u16) -> Result<(), RunFault>
        ensures { Driven F.Family C.Calendar self.old port code self.new result }
    {
        self.ready()?;
        if port >= self.wiring.net.head.ports {
            return Err(RunFault::NoSuchInput(self.ticks));
        }
        let v = self.value(code)?;
        self.ports[port as usize] = v;
        self.calm = false;
        Ok(())
    }

    // The code of a net's level at the last completed tick, and whether it is definite; refused with 16, 22 or 23.
    pub fn read(&self, net: u16) -> Result<(u16, bool), RunFault>
        ensures { Reads F.Family C.Calendar self.now net result }
    {
        self.ready()?;
        if net >= self.wiring.net.head.nets {
            return Err(RunFault::NoSuchNet(self.ticks));
        }
        if self.ticks == 0 {
            return Err(RunFault::WrongTime(self.ticks));
        }
        Ok(show::<F>(&self.levels, net))
    }

    // Completes up to k ticks, and writes their records from the start of the buffer; before each tick it stops if a record of each
    // watched net might not fit. Answers the ticks completed and the bytes written; refused with 16, 19, 20 or 21.
    pub fn advance(&mut self, k: u32, out: &mut [u8]) -> Result<(u32, usize), RunFault>
        ensures { Advanced F.Family C.Calendar self.old k out.old self.new out.new result }
    {
        self.ready()?;
        if k == 0 {
            return Err(RunFault::ZeroTicks(self.ticks));
        }
        if k > 16_777_216 - self.ticks {
            return Err(RunFault::TooManyTicks(self.ticks));
        }
        let room = 8 * self.wiring.net.head.watches as usize;
        if out.len() < room {
            return Err(RunFault::ShortBuffer(self.ticks));
        }
        let mut end: usize = 0;
        for done in 0..k {
            if out.len() - end < room {
                return Ok((done, end));
            }
            end = self.tick(out, end);
        }
        Ok((k, end))
    }

    // The calendar. After completed tick t of a run that was opened on a fit one its now is t, and exactly the entries of the
    // signal definition wait; so it never refused a put or a turn of the run's.
    pub fn calendar(&self) -> &C
        ensures { KeepsTime F.Family C.Calendar self.now result.now }
    {
        &self.calendar
    }

    // Check 16: whether the calendar was fit.
    fn ready(&self) -> Result<(), RunFault>
        ensures { result ≡ readied self.now.fit self.now.ticks }
    {
        if self.fit {
            Ok(())
        } else {
            Err(RunFault::UnfitCalendar(self.ticks))
        }
    }

    // The value of a code.
    fn value(&self, code: u16) -> Result<F::Value, RunFault>
        ensures { result ≡ valued (F.Family.logic.of_code code) self.now.ticks }
    {
        F::of_code(code).ok_or(RunFault::NoSuchCode(self.ticks))
    }
}

impl<F: Family + Drop, C: Calendar + Drop> Run<F, C> {
    // Ends the run, and answers the ticks completed and the records written since opening.
    pub fn finish(self) -> (u32, u64)
        ensures { Finished F.Family C.Calendar self result }
    {
        (self.ticks, self.records)
    }
}

// The code of a net's level, and whether it is definite.
fn show<F: Family>(levels: &[F::Value; 1024], net: u16) -> (u16, bool)
    requires { net < 1024 }
    ensures { result ≡ shown F.Family.logic (slice_index_or levels.now net F.Family.logic.unset) }
{
    let v = levels[net as usize];
    (F::code(v), F::definite(v))
}

// Whether a run can be opened on the calendar.
fn suits<C: Calendar>(net: &Netlist, calendar: &C) -> bool
    ensures { result ≡ fit_for (contents net.now) (C.Calendar.meaning calendar.now) }
{
    calendar.now() == 0
        && calendar.next().is_none()
        && calendar.gates() >= net.head.gates
        && calendar.capacity() >= net.total_delay()
}
