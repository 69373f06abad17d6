// The tables of IEEE 1164 in full, as the standard prints them: rows are the left operand,
// columns the right one, both in the order U X 0 1 Z W L H -. A board looks up every entry.
ghost use Rattle.std.specs.Prelude.{◌≡◌, IfOk, codes};

use crate::laid;
use crate::laid::{Gate, Kind, Row};
use crate::values::{Values, letter};
use crate::vector::Vector;
use std::alloc::{AllocError, Global};

pub const AND: &[u8] = b"\
    UU0UUU0UU UX0XXX0XX 000000000 UX01XX01X UX0XXX0XX UX0XXX0XX 000000000 UX01XX01X UX0XXX0XX";

pub const OR: &[u8] = b"\
    UUU1UUU1U UXX1XXX1X UX01XX01X 111111111 UXX1XXX1X UXX1XXX1X UX01XX01X 111111111 UXX1XXX1X";

pub const XOR: &[u8] = b"\
    UUUUUUUUU UXXXXXXXX UX01XX01X UX10XX10X UXXXXXXXX UXXXXXXXX UX01XX01X UX10XX10X UXXXXXXXX";

// The standard has these three as the NOT of the three above.
pub const NAND: &[u8] = b"\
    UU1UUU1UU UX1XXX1XX 111111111 UX10XX10X UX1XXX1XX UX1XXX1XX 111111111 UX10XX10X UX1XXX1XX";

pub const NOR: &[u8] = b"\
    UUU0UUU0U UXX0XXX0X UX10XX10X 000000000 UXX0XXX0X UXX0XXX0X UX10XX10X 000000000 UXX0XXX0X";

pub const XNOR: &[u8] = b"\
    UUUUUUUUU UXXXXXXXX UX10XX10X UX01XX01X UXXXXXXXX UXXXXXXXX UX10XX10X UX01XX01X UXXXXXXXX";

// The rows of NOT and of a buffer (the standard's to_UX01) are alike, for they have one operand.
pub const NOT: &[u8] = b"\
    UUUUUUUUU XXXXXXXXX 111111111 000000000 XXXXXXXXX XXXXXXXXX 111111111 000000000 XXXXXXXXX";

pub const BUFFER: &[u8] = b"\
    UUUUUUUUU XXXXXXXXX 000000000 111111111 XXXXXXXXX XXXXXXXXX 000000000 111111111 XXXXXXXXX";

// Rows are the data, columns the enable. Not a table of the standard: Z where the enable reads 0,
// else U where either is U, else X where the enable is unknown, else what the data reads.
pub const TRI: &[u8] = b"\
    UUZUUUZUU UXZXXXZXX UXZ0XXZ0X UXZ1XXZ1X UXZXXXZXX UXZXXXZXX UXZ0XXZ0X UXZ1XXZ1X UXZXXXZXX";

pub const RESOLUTION: &[u8] = b"\
    UUUUUUUUU UXXXXXXXX UX0X0000X UXX11111X UX01ZWLHX UX01WWWWX UX01LWLWX UX01HWWHX UXXXXXXXX";

// The letter in a row and a column; the rows stand one space apart.
fn letter_in(table: &[u8], row: u16, column: u16) -> char {
    let place = row as usize * 10 + column as usize;
    table.get(place).map_or('?', |letter| char::from(*letter))
}

// All 81 gates of one kind over nine ports, one port for each value; gate (i, j) drives net 9 + 9 i + j.
fn all_pairs(heap: Global, kind: u8) -> Result<Vec<u8>, AllocError> {
    let gates = (0..81u16)
        .map(|at| Row(kind, at / 9, if kind > 2 { at % 9 } else { 0 }, 9 + at, 1))
        .collect::<Vec<Row>>(heap)?;
    let watches = (9..90).collect::<Vec<u16>>(heap)?;
    laid::file(heap, 90, 9, gates.as_slice(), watches.as_slice())
}

// One tick after the ports have their values each gate shows its entry; a U is no change.
fn all_entries(heap: Global, table: &[u8], tick: u16, first: u16) -> Result<String, AllocError> {
    let mut out = String::new(heap);
    for at in 0..81u16 {
        let (net, entry) = (first.saturating_add(at), letter_in(table, at / 9, at % 9));
        if entry != 'U' {
            writeln!(out, "{tick} {net} {entry}")?;
        }
    }
    Ok(out)
}

// Looks up every entry of a gate's table. The kind may be a number that no kind has.
pub fn gate_table<K: Into<u8>>(
    heap: Global,
    name: &'static str,
    kind: K,
    table: &[u8],
) -> Result<Vector, AllocError>
    ensures { IfOk result (λ v. v.name.now ≡ name.now) }
{
    let board = all_pairs(heap, kind.into())?;
    let mut script = String::new(heap);
    let mut expected = String::new(heap);
    for code in 0..9 {
        let value = letter(code);
        writeln!(script, "drive {code} {value}")?;
        expected.push_str("ok\n")?;
    }
    script.push_str("advance 2\n")?;
    expected.push_str(all_entries(heap, table, 1, 9)?.as_str())?;
    expected.push_str("done 2\n")?;
    Ok(Vector {
        name,
        values: Values::Nine,
        board,
        script,
        expected,
    })
}

// 81 ports, each with a gate on it that is still at its start level at tick 0.
fn all_meetings(heap: Global) -> Result<Vec<u8>, AllocError> {
    let gates = (0..81u16)
        .map(|at| Gate {
            kind: Kind::Buffer,
            a: 0,
            b: 0,
            out: at,
            delay: 64,
        })
        .collect::<Vec<Gate>>(heap)?;
    let watches = (0..81).collect::<Vec<u16>>(heap)?;
    laid::file(heap, 81, 81, gates.as_slice(), watches.as_slice())
}

// Looks up every entry of the resolution: the row's value by the port, the column's by the gate.
pub fn resolution_table(heap: Global) -> Result<Vector, AllocError>
    ensures { IfOk result (λ v. v.name.now ≡ codes "resolution") }
{
    let board = all_meetings(heap)?;
    let mut script = String::new(heap);
    let mut expected = String::new(heap);
    for at in 0..81u16 {
        let (row, column) = (letter(u32::from(at / 9)), letter(u32::from(at % 9)));
        write!(script, "drive {at} {row}\nwake {at} {column}\n")?;
        expected.push_str("ok\nok\n")?;
    }
    script.push_str("advance 1\n")?;
    expected.push_str(all_entries(heap, RESOLUTION, 0, 0)?.as_str())?;
    expected.push_str("done 1\n")?;
    Ok(Vector {
        name: "resolution",
        values: Values::Nine,
        board,
        script,
        expected,
    })
}
