// A choice between the two families. A value goes about as its code.
use crate::kind::Kind;
use crate::pull::Pull;
use crate::{nine, pull};
use std::alloc::AllocError;

#[derive(Clone, Copy, Debug, PartialEq, Eq)]
pub enum Family {
    Nine,
    Pulls,
}

// The octal digit that a byte of a name shows.
fn octal(byte: u8) -> Option<u8> {
    byte.checked_sub(b'0').filter(|digit| *digit < 8)
}

// The operation of a gate of the kind with this number; of a number that no kind has, an unset value.
pub fn operate(family: Family, kind: u8, a: u32, b: u32) -> u32 {
    match family {
        Family::Nine => nine::operate(kind, a, b),
        Family::Pulls => pull::operate(kind, a, b),
    }
}

fn digit(n: u32) -> u8 {
    b'0' + (n % 8) as u8
}

// Writes the name of the value with this code behind bytes.
pub fn push_name(family: Family, code: u32, out: &mut Vec<u8>) -> Result<(), AllocError> {
    match family {
        Family::Nine => out.extend_from_slice(&[nine::letter_of(code)]),
        Family::Pulls => out.extend_from_slice(&[
            digit(code / 512),
            digit(code / 64),
            digit(code / 8),
            digit(code),
        ]),
    }
}

impl Family {
    pub fn unset(self) -> u32 {
        match self {
            Family::Nine => 0,
            Family::Pulls => 0o0707,
        }
    }

    pub fn has_value(self, code: u32) -> bool {
        match self {
            Family::Nine => code < 9,
            Family::Pulls => Pull::try_from(code).is_ok(),
        }
    }

    pub fn operate(self, kind: Kind, a: u32, b: u32) -> u32 {
        match self {
            Family::Nine => nine::gate_result(kind, a, b),
            Family::Pulls => pull::gate_result(kind, a, b),
        }
    }

    pub fn resolve(self, a: u32, b: u32) -> u32 {
        match self {
            Family::Nine => nine::entry(nine::RESOLVE, a, b),
            Family::Pulls => pull::resolve(a, b),
        }
    }

    pub fn is_definite(self, code: u32) -> bool {
        match self {
            Family::Nine => nine::is_definite(code),
            Family::Pulls => pull::is_definite(code),
        }
    }

    // Writes the name of the value with this code behind `text`.
    pub fn push_name(self, code: u32, text: &mut String) -> Result<(), AllocError> {
        match self {
            Family::Nine => text.push(nine::letter(code)),
            Family::Pulls => {
                let digits = code % 4096;
                write!(text, "{digits:04o}")
            }
        }
    }

    // The code of the value with this name.
    pub fn of_name(self, name: &[u8]) -> Option<u32> {
        match (self, name) {
            (Family::Nine, [letter]) => nine::code_of(*letter),
            (Family::Pulls, [a, b, c, d]) => {
                let digits = [octal(*a)?, octal(*b)?, octal(*c)?, octal(*d)?];
                Pull::try_from(digits).ok().map(u32::from)
            }
            _ => None,
        }
    }
}
