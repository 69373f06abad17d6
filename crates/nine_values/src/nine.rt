ghost use Rattle.std.specs.Prelude.{◌≡◌, refl};
ghost use Rattle.nine_values.specs.Nines.{nines, nine_names, read9, byte9};
ghost use Rattle.nine_values.specs.Laws.{nine_laws};
ghost use Rattle.nine_values.specs.Names.{nine_spelling};

use logic::family::Family;
use logic::named::Named;

// The values in the order of their codes: U is unset, X unknown, Zero and One are strong levels,
// Z is not driven, W a weak unknown, L and H are weak levels, and Dash is "do not care".
#[derive(Clone, Copy, PartialEq)]
pub enum Nine {
    U,
    X,
    Zero,
    One,
    Z,
    W,
    L,
    H,
    Dash,
}

// What an operand of a logic operation counts as.
fn read(a: Nine) -> Nine
    ensures { result ≡ read9 a }
{
    match a {
        Nine::L => Nine::Zero,
        Nine::H => Nine::One,
        Nine::Z | Nine::W | Nine::Dash => Nine::X,
        _ => a,
    }
}

// The name of a value, which is one letter.
fn letter(a: Nine) -> u8
    ensures { result ≡ byte9 a }
{
    match a {
        Nine::U => b'U',
        Nine::X => b'X',
        Nine::Zero => b'0',
        Nine::One => b'1',
        Nine::Z => b'Z',
        Nine::W => b'W',
        Nine::L => b'L',
        Nine::H => b'H',
        Nine::Dash => b'-',
    }
}

#[derive(Drop)]
pub struct NineValues;

impl Family for NineValues {
    type Value = Nine;

    ghost logic = { nines };

    ghost laws = { nine_laws };

    fn unset() -> Nine {
        Nine::U
    }

    fn pull_up() -> Nine {
        Nine::H
    }

    fn pull_down() -> Nine {
        Nine::L
    }

    fn not(a: Nine) -> Nine {
        match read(a) {
            Nine::Zero => Nine::One,
            Nine::One => Nine::Zero,
            x => x,
        }
    }

    fn and(a: Nine, b: Nine) -> Nine {
        match (read(a), read(b)) {
            (x, y) if x == Nine::Zero || y == Nine::Zero => Nine::Zero,
            (x, y) if x == Nine::U || y == Nine::U => Nine::U,
            (x, y) if x == Nine::X || y == Nine::X => Nine::X,
            _ => Nine::One,
        }
    }

    fn or(a: Nine, b: Nine) -> Nine {
        match (read(a), read(b)) {
            (x, y) if x == Nine::One || y == Nine::One => Nine::One,
            (x, y) if x == Nine::U || y == Nine::U => Nine::U,
            (x, y) if x == Nine::X || y == Nine::X => Nine::X,
            _ => Nine::Zero,
        }
    }

    fn xor(a: Nine, b: Nine) -> Nine {
        match (read(a), read(b)) {
            (x, y) if x == Nine::U || y == Nine::U => Nine::U,
            (x, y) if x == Nine::X || y == Nine::X => Nine::X,
            (x, y) if x == y => Nine::Zero,
            _ => Nine::One,
        }
    }

    fn tri(data: Nine, enable: Nine) -> Nine {
        match (read(data), read(enable)) {
            (_, Nine::Zero) => Nine::Z,
            (d, e) if d == Nine::U || e == Nine::U => Nine::U,
            (_, Nine::X) => Nine::X,
            (d, _) => d,
        }
    }

    fn resolve(a: Nine, b: Nine) -> Nine {
        match (a, b) {
            (Nine::U, _) | (_, Nine::U) => Nine::U,
            (Nine::X | Nine::Dash, _) | (_, Nine::X | Nine::Dash) => Nine::X,
            (Nine::Zero, Nine::One) | (Nine::One, Nine::Zero) => Nine::X,
            (Nine::Zero, _) | (_, Nine::Zero) => Nine::Zero,
            (Nine::One, _) | (_, Nine::One) => Nine::One,
            (Nine::Z, x) | (x, Nine::Z) => x,
            (x, y) if x == y => x,
            _ => Nine::W,
        }
    }

    fn refines(b: Nine, a: Nine) -> bool {
        match (b, a) {
            (_, Nine::U) => true,
            (y, Nine::X) => y != Nine::U,
            (Nine::Z | Nine::L | Nine::H, Nine::W) => true,
            (y, x) => y == x,
        }
    }

    fn definite(a: Nine) -> bool {
        !matches!(a, Nine::U | Nine::X | Nine::W)
    }

    fn code(a: Nine) -> u16 {
        a as u16
    }

    // Kept as it is: a TryFrom of Nine would add an error type that this one caller throws away.
    fn of_code(code: u16) -> Option<Nine> {
        match code {
            0 => Some(Nine::U),
            1 => Some(Nine::X),
            2 => Some(Nine::Zero),
            3 => Some(Nine::One),
            4 => Some(Nine::Z),
            5 => Some(Nine::W),
            6 => Some(Nine::L),
            7 => Some(Nine::H),
            8 => Some(Nine::Dash),
            _ => None,
        }
    }
}

impl Named for NineValues {
    const WIDTH: usize = 1;

    ghost WIDTH = { 1 };

    ghost naming = { nine_names };

    ghost wide = { refl };

    ghost spelling = { nine_spelling };

    fn name_byte(a: Nine, i: usize) -> u8 {
        match i {
            0 => letter(a),
            _ => 0,
        }
    }

    fn of_name(name: &[u8]) -> Option<Nine> {
        match name {
            [b'U'] => Some(Nine::U),
            [b'X'] => Some(Nine::X),
            [b'0'] => Some(Nine::Zero),
            [b'1'] => Some(Nine::One),
            [b'Z'] => Some(Nine::Z),
            [b'W'] => Some(Nine::W),
            [b'L'] => Some(Nine::L),
            [b'H'] => Some(Nine::H),
            [b'-'] => Some(Nine::Dash),
            _ => None,
        }
    }
}
