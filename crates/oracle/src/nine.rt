// The nine values of IEEE 1164 as the standard prints them: tables of letters.
use crate::kind::Kind;

// The values in the order of their codes.
pub const LETTERS: &[u8] = b"UX01ZWLH-";

// Rows are the left operand, columns the right one, both in the order of `LETTERS`.
pub const AND: &[u8] = b"\
    UU0UUU0UU\
    UX0XXX0XX\
    000000000\
    UX01XX01X\
    UX0XXX0XX\
    UX0XXX0XX\
    000000000\
    UX01XX01X\
    UX0XXX0XX";

pub const OR: &[u8] = b"\
    UUU1UUU1U\
    UXX1XXX1X\
    UX01XX01X\
    111111111\
    UXX1XXX1X\
    UXX1XXX1X\
    UX01XX01X\
    111111111\
    UXX1XXX1X";

pub const XOR: &[u8] = b"\
    UUUUUUUUU\
    UXXXXXXXX\
    UX01XX01X\
    UX10XX10X\
    UXXXXXXXX\
    UXXXXXXXX\
    UX01XX01X\
    UX10XX10X\
    UXXXXXXXX";

pub const NOT: &[u8] = b"UX10XX10X";

// Rows are the data, columns the enable: an enable that reads 0 lets go, an unknown one leaves
// an unknown output, and a U anywhere else stays U.
pub const TRI: &[u8] = b"\
    UUZUUUZUU\
    UXZXXXZXX\
    UXZ0XXZ0X\
    UXZ1XXZ1X\
    UXZXXXZXX\
    UXZXXXZXX\
    UXZ0XXZ0X\
    UXZ1XXZ1X\
    UXZXXXZXX";

// The resolution table of the standard.
pub const RESOLVE: &[u8] = b"\
    UUUUUUUUU\
    UXXXXXXXX\
    UX0X0000X\
    UXX11111X\
    UX01ZWLHX\
    UX01WWWWX\
    UX01LWLWX\
    UX01HWWHX\
    UXXXXXXXX";

// Kept as it is: the simulator keeps codes, to serve both families; the tables are read by letter, with no enum between.

// The code of a letter.
pub fn code_of(letter: u8) -> Option<u32> {
    let place = LETTERS.iter().position(|l| *l == letter)?;
    u32::try_from(place).ok()
}

// The letter of a code; `?` for a code without a value.
pub fn letter_of(code: u32) -> u8 {
    LETTERS.get(code as usize).copied().unwrap_or(b'?')
}

// The same as a character.
pub(crate) fn letter(code: u32) -> char {
    char::from(letter_of(code))
}

// What stands in the table's row `a` and column `b`.
pub fn entry(table: &[u8], a: u32, b: u32) -> u32 {
    let letter = table.get(a as usize * 9 + b as usize);
    letter.and_then(|l| code_of(*l)).unwrap_or(0)
}

// The operation of a gate of the kind with this number; of a number that no kind has, an unset value.
pub fn operate(kind: u8, a: u32, b: u32) -> u32 {
    Kind::try_from(kind).map_or(0, |kind| gate_result(kind, a, b))
}

// The operation of a gate of this kind.
pub(crate) fn gate_result(kind: Kind, a: u32, b: u32) -> u32 {
    match kind {
        Kind::Buffer => entry(AND, a, a),
        Kind::Not => entry(NOT, 0, a),
        Kind::And => entry(AND, a, b),
        Kind::Or => entry(OR, a, b),
        Kind::Xor => entry(XOR, a, b),
        Kind::Nand => entry(NOT, 0, entry(AND, a, b)),
        Kind::Nor => entry(NOT, 0, entry(OR, a, b)),
        Kind::Xnor => entry(NOT, 0, entry(XOR, a, b)),
        Kind::Tri => entry(TRI, a, b),
        Kind::PullUp => 7,
        Kind::PullDown => 6,
    }
}

// Nothing else refines 0, 1, Z, L, H or -; U, X and W each leave a choice.
pub fn is_definite(code: u32) -> bool {
    !matches!(letter_of(code), b'U' | b'X' | b'W')
}
