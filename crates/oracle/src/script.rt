// Reads the lines of a script and writes the answers.
use crate::board;
use crate::family::Family;
use crate::refusal::{Failure, Fault, Refusal, answered};
use crate::simulator::{Record, Simulator};
use std::alloc::{AllocError, Global};

// The least output buffer of a line, and its trace buffer.
const OUTPUT: usize = 40_000;

const TRACE: usize = 16_384;

#[derive(Clone, Copy, Debug, PartialEq, Eq)]
enum Command {
    Wake(u32, u32),
    Drive(u32, u32),
    Advance(u32),
    Read(u32),
}

// What a line is answered with: its text, the records of an advance and, where it was refused, why.
#[derive(Drop)]
pub struct Answer {
    pub text: String,
    pub records: Vec<Record>,
    pub fault: Option<Fault>,
}

// A number of 1 to 8 decimal digits.
fn number(word: &[u8]) -> Option<u32> {
    if word.len() > 8 || !word.iter().all(|b| b.is_ascii_digit()) {
        return None;
    }
    str::from_utf8(word).ok()?.parse::<u32>().ok()
}

// What stands before and behind the first space.
fn parted(text: &[u8]) -> Option<(&[u8], &[u8])> {
    let at = text.iter().position(|b| *b == b' ')?;
    Some((&text[..at], &text[at + 1..]))
}

// A number, one space and the name of a value.
fn operands(family: Family, text: &[u8]) -> Option<(u32, u32)> {
    let (word, name) = parted(text)?;
    Some((number(word)?, family.of_name(name)?))
}

impl Command {
    fn read(family: Family, line: &[u8]) -> Option<Command> {
        let (word, rest) = parted(line)?;
        match word {
            b"wake" => operands(family, rest).map(|(gate, code)| Command::Wake(gate, code)),
            b"drive" => operands(family, rest).map(|(port, code)| Command::Drive(port, code)),
            b"advance" => number(rest).map(Command::Advance),
            b"read" => number(rest).map(Command::Read),
            _ => None,
        }
    }
}

// The line `no`: the line's number, then the fault's number, layer and place.
fn refusal(heap: Global, line: u32, fault: Fault) -> Result<String, AllocError> {
    format!(in heap; "no {line} {fault}\n")
}

// A line for each record, its tick, its net and the name of its level, then the line `done`.
fn done(
    heap: Global,
    family: Family,
    records: &[Record],
    ticks: u32,
) -> Result<String, AllocError> {
    let mut text = String::new(heap);
    for record in records {
        let (tick, net) = (record.tick, record.net);
        write!(text, "{tick} {net} ")?;
        family.push_name(record.code, &mut text)?;
        text.push('\n')?;
    }
    writeln!(text, "done {ticks}")?;
    Ok(text)
}

// The text that answers a command, and the records of an advance.
fn obey(
    heap: Global,
    sim: &mut Simulator,
    command: Command,
) -> Result<(String, Vec<Record>), Failure> {
    match command {
        Command::Wake(gate, code) => {
            sim.wake(gate, code)?;
            Ok((String::from_str(heap, "ok\n")?, Vec::new(heap)))
        }
        Command::Drive(port, code) => {
            sim.drive(port, code)?;
            Ok((String::from_str(heap, "ok\n")?, Vec::new(heap)))
        }
        Command::Advance(count) => {
            let (ticks, records) = sim.advance(count, TRACE)?;
            let text = done(heap, sim.family(), records.as_slice(), ticks)?;
            Ok((text, records))
        }
        Command::Read(net) => {
            let (level, definite) = sim.read(net)?;
            let mut text = String::new(heap);
            sim.family().push_name(level, &mut text)?;
            text.push_str(if definite { " definite\n" } else { " open\n" })?;
            Ok((text, Vec::new(heap)))
        }
    }
}

fn refused(heap: Global, line: u32, fault: Fault) -> Result<Answer, AllocError> {
    Ok(Answer {
        text: refusal(heap, line, fault)?,
        records: Vec::new(heap),
        fault: Some(fault),
    })
}

// Answers one line, given the lengths of the output buffer and of the trace buffer. With wrong
// buffers nothing is written; a line that is no command is refused before the run is asked.
pub fn answer_line(
    heap: Global,
    sim: &mut Simulator,
    line: &[u8],
    number: u32,
    out: usize,
    trace: usize,
) -> Result<Answer, AllocError> {
    let place = u64::from(number);
    if out < OUTPUT || trace != TRACE {
        return Ok(Answer {
            text: String::new(heap),
            records: Vec::new(heap),
            fault: Some(Refusal::WrongBuffers.at(place)),
        });
    }
    let Some(command) = Command::read(sim.family(), line) else {
        return refused(heap, number, Refusal::NoCommand.at(place));
    };
    match answered(obey(heap, sim, command))? {
        Ok((text, records)) => Ok(Answer {
            text,
            records,
            fault: None,
        }),
        Err(fault) => refused(heap, number, fault),
    }
}

// Answers every line of a script; a line ends with 0A, which the last may lack.
pub fn answer_all(heap: Global, sim: &mut Simulator, script: &[u8]) -> Result<String, AllocError> {
    let mut text = String::new(heap);
    for (before, line) in script.split_inclusive(|b| *b == b'\n').enumerate() {
        let number = u32::try_from(before.saturating_add(1)).unwrap_or(u32::MAX);
        let line = line.strip_suffix(b"\n").unwrap_or(line);
        let reply = answer_line(heap, sim, line, number, OUTPUT, TRACE)?;
        text.push_str(reply.text.as_str())?;
    }
    Ok(text)
}

// What the bench prints for a file and a script: the answers, or one line for a bad file.
// No more than 16,384 bytes of a file are looked at.
pub fn bench(
    heap: Global,
    family: Family,
    file: &[u8],
    script: &[u8],
) -> Result<String, AllocError> {
    let part = &file[..file.len().min(16_384)];
    match answered(board::decode(heap, part))? {
        Ok(board) => {
            let mut sim = Simulator::new(heap, family, board, true)?;
            answer_all(heap, &mut sim, script)
        }
        Err(fault) => refusal(heap, 0, fault),
    }
}
