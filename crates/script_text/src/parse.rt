ghost use Rattle.std.specs.Prelude.{◌≡◌, ℕ, ◌+◌, ◌-◌, ◌*◌, ◌<◌, ◌≤◌, length, drop, slice_index};
ghost use Rattle.script_text.specs.Commands.{number, number_before, code_of, verb, command, Exactly};

use crate::command::{Command, Verb};
use logic::named::Named;

// The number that 1 to 8 digits write.
fn read_number(digits: &[u8]) -> Option<u32>
    ensures { result ≡ number digits.now }
{
    if digits.len() == 0 || digits.len() > 8 {
        return None;
    }
    let mut n: u32 = 0;
    for d in digits {
        n = n * 10 + (*d as char).to_digit(10)?;
    }
    Some(n)
}

// The character at a place of a line, or 0 past its end.
// Kept as it is: the bytes of a command word are read as chars and decided by cases of letters, and no word has a letter 0.
fn letter(line: &[u8], i: usize) -> char
    ensures { result ≡ slice_index line.now i }
{
    line.get(i).map_or('\0', |b| *b as char)
}

// The first word of a line, which a space must follow.
fn read_verb(line: &[u8]) -> Option<Verb>
    ensures { result ≡ verb line.now }
{
    match (
        letter(line, 0),
        letter(line, 1),
        letter(line, 2),
        letter(line, 3),
        letter(line, 4),
    ) {
        ('w', 'a', 'k', 'e', ' ') => Some(Verb::Wake),
        ('r', 'e', 'a', 'd', ' ') => Some(Verb::Read),
        ('d', 'r', 'i', 'v', 'e') => match letter(line, 5) {
            ' ' => Some(Verb::Drive),
            _ => None,
        },
        ('a', 'd', 'v', 'a', 'n') => match (letter(line, 5), letter(line, 6), letter(line, 7)) {
            ('c', 'e', ' ') => Some(Verb::Advance),
            _ => None,
        },
        _ => None,
    }
}

// The number that stands from a place on, to the end of the line.
fn read_from(line: &[u8], at: usize) -> Option<u32>
    ensures { result ≡ number (drop at line.now) }
{
    read_number(line.get(at..)?)
}

// The number that stands from a place on, before a space and a name of `width` bytes.
fn read_before(line: &[u8], at: usize, width: usize) -> Option<u32>
    ensures { result ≡ number_before line.now at width }
{
    let end = line.len().checked_sub(width)?.checked_sub(1)?;
    match line[end] as char {
        ' ' => read_number(line.get(at..end)?),
        _ => None,
    }
}

// The code of the value that a name has.
fn code_of<F: Named>(name: &[u8]) -> Option<u16>
    ensures { result ≡ code_of F.Family.logic F.Named.naming name.now }
{
    F::of_name(name).map(|v| F::code(v))
}

// The code of the value that the last `width` bytes of a line name.
fn read_name<F: Named>(line: &[u8], width: usize) -> Option<u16>
    ensures { result ≡ code_of F.Family.logic F.Named.naming (drop (length line.now - width) line.now) }
{
    code_of::<F>(&line[line.len().saturating_sub(width)..])
}

fn read_command<F: Named>(line: &[u8]) -> Option<Command>
    ensures { result ≡ command F.Family.logic F.Named.naming line.now }
{
    if line.len() > 32 {
        return None;
    }
    let width = F::name_width();
    match read_verb(line)? {
        Verb::Wake => {
            let gate = read_before(line, 5, width)?;
            let code = read_name::<F>(line, width)?;
            Some(Command::Wake(gate, code))
        }
        Verb::Drive => {
            let port = read_before(line, 6, width)?;
            let code = read_name::<F>(line, width)?;
            Some(Command::Drive(port, code))
        }
        Verb::Advance => Some(Command::Advance(read_from(line, 8)?)),
        Verb::Read => Some(Command::Read(read_from(line, 5)?)),
    }
}

// The command that a line says, if it says one: exactly the texts of commands are read.
pub fn parse<F: Named>(line: &[u8]) -> Option<Command>
    ensures reads { result ≡ command F.Family.logic F.Named.naming line.now }
    ensures exactly { Exactly F.Family.logic F.Named.naming line.now result }
{
    read_command::<F>(line)
}
