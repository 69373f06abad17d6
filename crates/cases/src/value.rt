// Codes and names of values.
use crate::random::Random;
use std::alloc::{AllocError, Global};
use vectors::values::{Values, letter};

// A pull range as its code: two pairs of digits, each in order.
fn any_pull(random: &mut Random) -> u32 {
    let (up_low, down_low) = (random.below(8), random.below(8));
    let up_high = random.between(up_low, 7).min(7);
    let down_high = random.between(down_low, 7).min(7);
    up_low.min(7) * 512 + up_high * 64 + down_low.min(7) * 8 + down_high
}

// The code of a 0.
pub fn zero(values: Values) -> u32 {
    match values {
        Values::Nine => 2,
        Values::Pulls => 0o0066,
    }
}

// The code of some value, more often of a 0 or a 1.
pub fn any(random: &mut Random, values: Values) -> u32 {
    match (values, random.below(4)) {
        (Values::Nine, 0 | 1) => random.between(2, 3),
        (Values::Nine, _) => random.below(9),
        (Values::Pulls, 0) => 0o0066,
        (Values::Pulls, 1) => 0o6600,
        (Values::Pulls, _) => any_pull(random),
    }
}

// A code that mostly no value has: the nine end at 8, and a pull's low must not exceed its high.
pub fn odd_code(random: &mut Random) -> u32 {
    match random.below(4) {
        0 => 9,
        1 => 0o0770,
        2 => 4096,
        _ => random.below(65_536),
    }
}

// The name of the value with this code.
pub fn name(heap: Global, values: Values, code: u32) -> Result<String, AllocError> {
    match values {
        Values::Nine => letter(code).to_string(heap),
        Values::Pulls => {
            let digits = code % 4096;
            format!(in heap; "{digits:04o}")
        }
    }
}
