// Files with something wrong in them, mostly.
use crate::random::Random;
use std::alloc::{AllocError, Global};

// Numbers at which some check of a file begins or ends, as high or low bytes.
const EDGES: &[u8] = &[0, 0, 0, 1, 1, 2, 3, 4, 5, 8, 11, 12, 64, 65, 128, 255];

// Changes one byte, more often one of the head.
fn change(random: &mut Random, bytes: &mut [u8]) {
    let n = u32::try_from(bytes.len()).unwrap_or(0);
    let at = if random.once_in(3) {
        random.below(13)
    } else {
        random.below(n)
    };
    let value = random.pick(EDGES);
    if let Some(place) = bytes.get_mut(at as usize) {
        *place = value;
    }
}

// A file like this one, but cut, or longer, or with a byte or two changed. Not surely a wrong one.
pub fn spoiled(heap: Global, random: &mut Random, good: &[u8]) -> Result<Vec<u8>, AllocError> {
    let mut bytes = Vec::from_slice(heap, good)?;
    match random.below(8) {
        0 => bytes.truncate(random.below(20) as usize),
        1 => bytes.truncate(good.len().saturating_sub(random.between(1, 3) as usize)),
        2 => bytes.extend_from_slice(b"\x00\x01\x02")?,
        3 => {
            change(random, bytes.as_mut_slice());
            change(random, bytes.as_mut_slice());
        }
        _ => change(random, bytes.as_mut_slice()),
    }
    Ok(bytes)
}
