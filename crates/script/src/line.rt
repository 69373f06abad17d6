ghost use Rattle.std.specs.Prelude.{◌≡◌, ℕ, ◌≤◌, min, length};
ghost use Rattle.script_text.specs.Commands.{command};
ghost use Rattle.script_text.specs.Laid.{Lays};
ghost use Rattle.script.specs.Answers.{Obeys, Answered, note_text, roomy};
ghost use Rattle.script.specs.Faults.{at_line, noted};

use crate::fault::{AtLine, ScriptFault};
use calendar::calendar::Calendar;
use logic::named::Named;
use run::state::{Run, RunFault};
use script_text::command::Command;
use script_text::parse::parse;
use script_text::say::{say_fault, say_level, say_ok, say_trace};

// Works one line of a script, which is the line of that number from 1. It writes the answer from the start of the output buffer, and
// answers the bytes written and the fault, if there is one. An advance leaves its records at the front of the trace buffer.
pub fn answer_line<F: Named, C: Calendar>(
    run: &mut Run<F, C>,
    line: &[u8],
    number: u32,
    out: &mut [u8],
    trace: &mut [u8],
) -> (usize, Option<ScriptFault>)
    ensures { Answered F.Family F.Named.own C.Calendar run.old line.now number out.old trace.old run.new out.new trace.new result }
{
    if !buffers_fit(out, trace) {
        return (0, Some(ScriptFault::SmallBuffers(number)));
    }
    match parse::<F>(line) {
        None => {
            let fault = ScriptFault::NoCommand(number);
            (say(out, fault), Some(fault))
        }
        Some(command) => match obey(run, command, number, out, trace) {
            Ok(end) => (end, None),
            Err(fault) => (say(out, fault), Some(fault)),
        },
    }
}

// 40,000 bytes have room for every answer, and 16,384 for 2,048 records.
fn buffers_fit(out: &[u8], trace: &[u8]) -> bool
    ensures { result ≡ roomy out.now trace.now }
{
    out.len() >= 40_000 && trace.len() == 16_384
}

// Writes a fault.
fn say(out: &mut [u8], fault: ScriptFault) -> usize
    ensures lays { Lays out.old 0 (note_text (noted fault)) result out.new }
    ensures short { length (note_text (noted fault)) ≤ 100 }
{
    say_fault(
        out,
        fault.line(),
        fault.number() as u32,
        fault.letter(),
        fault.place(),
    )
}

// Makes the call of a command, and writes what it answers.
fn obey<F: Named, C: Calendar>(
    run: &mut Run<F, C>,
    command: Command,
    line: u32,
    out: &mut [u8],
    trace: &mut [u8],
) -> Result<usize, ScriptFault>
    requires room { 40000 ≤ length out.old }
    requires long { length trace.old ≡ 16384 }
    ensures { Obeys F.Family F.Named.own C.Calendar line command run.old out.old trace.old run.new out.new trace.new result }
{
    match command {
        Command::Wake(gate, code) => {
            at_line(run.wake(narrow(gate), code), line)?;
            Ok(say_ok(out))
        }
        Command::Drive(port, code) => {
            at_line(run.drive(narrow(port), code), line)?;
            Ok(say_ok(out))
        }
        Command::Advance(ticks) => {
            let (done, bytes) = at_line(run.advance(ticks, trace), line)?;
            Ok(say_trace::<F>(out, &trace[..bytes], done))
        }
        Command::Read(net) => {
            let (code, definite) = at_line(run.read(narrow(net)), line)?;
            Ok(say_level::<F>(out, code, definite))
        }
    }
}

// The run counts in 16 bits; a larger number is refused like 65,535, which no board reaches.
fn narrow(n: u32) -> u16
    ensures { result ≡ min n 65535 }
{
    u16::try_from(n).unwrap_or(u16::MAX)
}

// Kept as it is: the script's fault is wrapped round the run's by `From`, and a fault of the run does not know its line.
fn at_line<T>(r: Result<T, RunFault>, line: u32) -> Result<T, AtLine>
    ensures { result ≡ at_line line r }
{
    r.map_err(|fault| AtLine { line, fault })
}
