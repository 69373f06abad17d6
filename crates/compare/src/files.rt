// Compares what the two readers say of a file.
use crate::tally::Tally;
use crate::told;
use board_file::file::board_of;
use oracle::board;
use oracle::refusal::answered;
use std::alloc::{AllocError, Global};

// Whether both take the file, or both refuse it with one number, layer and place.
pub fn agree(heap: Global, tally: &mut Tally, bytes: &[u8]) -> Result<bool, AllocError> {
    let found = board_of(bytes).map(|_| ());
    let own = answered(board::decode(heap, bytes))?.map(|_| ());
    Ok(told::same(tally, found, own))
}
