// Script lines: good ones, ones that are refused, and ones that are no command.
use crate::board::Board;
use crate::random::Random;
use crate::value;
use std::alloc::{AllocError, Global};
use vectors::values::Values;

// No commands, each for another reason; some are good in one family alone.
const NONSENSE: &[&[u8]] = &[
    b"",
    b" ",
    b"wake",
    b"wake 0",
    b"wake 0 ",
    b"wake  0 1",
    b" wake 0 1",
    b"wake 0 1 ",
    b"wake 0  1",
    b"Wake 0 1",
    b"wakes 0 1",
    b"drive 0 u",
    b"drive 0 11",
    b"drive 0 0660",
    b"drive 0 7007",
    b"drive 0 8888",
    b"drive 0 066",
    b"drive 0 00066",
    b"drive 123456789 1",
    b"drive -1 1",
    b"drive +1 1",
    b"drive a 1",
    b"drive 0\t1",
    b"drive 1 0 1",
    b"advance",
    b"advance ",
    b"advance 000000001",
    b"advance 1 ",
    b"advance 0x1",
    b"advance 1 1",
    b"advance one",
    b"read 0\r",
    b"read 0 0",
    b"read 0,",
    b"read\x000",
    b"\xff\xfe",
    b"finish",
    b"read 0                           ",
    b"advance 1 advance 1 advance 1 advance 1",
];

// A number of a gate, a port or a net: mostly one that there is, else the first that there is not, or a huge one.
pub fn place(random: &mut Random, count: u32) -> u32 {
    match random.below(24) {
        0 => count,
        1 => random.between(0, 99_999_999),
        2 => random.between(65_536, 65_600),
        _ => random.below(count),
    }
}

// Ticks to advance by: 0 and what no run has left now and then, else few.
pub fn ticks(random: &mut Random) -> u32 {
    match random.below(24) {
        0 => 0,
        1 => random.between(16_777_217, 99_999_999),
        2 => random.between(60, 300),
        _ => random.between(1, 24),
    }
}

// A command with a number, which has zeros in front now and then.
fn numbered(heap: Global, random: &mut Random, word: &str, n: u32) -> Result<String, AllocError> {
    if random.once_in(16) {
        format!(in heap; "{word} {n:08}")
    } else {
        format!(in heap; "{word} {n}")
    }
}

// A command with a number and the name of a value.
fn valued(
    heap: Global,
    random: &mut Random,
    word: &str,
    n: u32,
    values: Values,
) -> Result<String, AllocError> {
    let mut text = numbered(heap, random, word, n)?;
    let name = value::name(heap, values, value::any(random, values))?;
    text.push(' ')?;
    text.push_str(name.as_str())?;
    Ok(text)
}

// A command of the right form.
fn command(
    heap: Global,
    random: &mut Random,
    board: &Board,
    values: Values,
) -> Result<String, AllocError> {
    match random.below(8) {
        0 => {
            let gate = place(random, board.gates);
            valued(heap, random, "wake", gate, values)
        }
        1 | 2 | 3 => {
            let port = place(random, board.ports);
            valued(heap, random, "drive", port, values)
        }
        4 | 5 => {
            let count = ticks(random);
            numbered(heap, random, "advance", count)
        }
        _ => {
            let net = place(random, board.nets);
            numbered(heap, random, "read", net)
        }
    }
}

// Drops, doubles or changes one byte.
fn slip(random: &mut Random, line: &mut Vec<u8>) -> Result<(), AllocError> {
    let n = u32::try_from(line.len()).unwrap_or(0);
    let at = random.below(n) as usize;
    if at >= line.len() {
        return Ok(());
    }
    let b = line[at];
    match random.below(3) {
        0 => {
            let _ = line.remove(at);
        }
        1 => line.insert(at, b)?,
        _ => line[at] = random.pick(b" 0189aZX-\r\x00\xff"),
    }
    Ok(())
}

// A slip in a long number could ask for millions of ticks.
fn may_slip(line: &[u8]) -> bool {
    !line.starts_with(b"a") || line.len() <= 11
}

// A line of a script, without its end.
// Kept as it is: three functions take all four of these; a struct of them would go to eight that use two or three.
pub fn line(
    heap: Global,
    random: &mut Random,
    board: &Board,
    values: Values,
) -> Result<Vec<u8>, AllocError> {
    if random.once_in(12) {
        return Vec::from_slice(heap, random.any_of(NONSENSE).unwrap_or(b""));
    }
    let mut text = command(heap, random, board, values)?.into_bytes();
    if may_slip(text.as_slice()) && random.once_in(16) {
        slip(random, &mut text)?;
    }
    Ok(text)
}
