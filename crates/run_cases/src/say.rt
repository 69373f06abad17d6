// What the cases print.
use run::state::RunFault;
use std::io;

// What a call answers that is not refused.
#[derive(Clone, Copy)]
pub enum Answer {
    Done,
    // the ticks and the bytes of the trace
    Advanced(u32, usize),
    // the code, and whether it is definite
    Level(u16, bool),
}

// What a buffer holds before an advance.
pub const UNWRITTEN: u8 = 7;

// Says the answer with the bytes of the trace; and each byte that was written behind them.
pub fn say(rt: &HostRuntime, answer: Result<Answer, RunFault>, trace: &[u8]) -> io::Result<()> {
    let written = match answer {
        Ok(Answer::Advanced(_, bytes)) => bytes,
        _ => 0,
    };
    for (i, b) in trace.iter().enumerate().skip(written) {
        if *b != UNWRITTEN {
            print!(rt; "byte {i} was written: ")?;
        }
    }
    match answer {
        Ok(Answer::Done) => println!(rt; "ok"),
        Ok(Answer::Level(code, definite)) => println!(rt; "{code} {definite}"),
        Ok(Answer::Advanced(ticks, bytes)) => {
            print!(rt; "{ticks} {bytes}:")?;
            say_bytes(rt, &trace[..bytes.min(trace.len())])
        }
        Err(fault) => say_fault(rt, fault),
    }
}

fn say_bytes(rt: &HostRuntime, bytes: &[u8]) -> io::Result<()> {
    for b in bytes {
        print!(rt; " {b}")?;
    }
    println!(rt; "")
}

fn say_fault(rt: &HostRuntime, fault: RunFault) -> io::Result<()> {
    let number = fault.number();
    let letter = fault.letter();
    let place = fault.place();
    println!(rt; "no {number} {letter} {place}")
}

// The ticks and the records of a whole run.
pub fn say_end(rt: &HostRuntime, (ticks, records): (u32, u64)) -> io::Result<()> {
    println!(rt; "finish {ticks} {records}")
}
