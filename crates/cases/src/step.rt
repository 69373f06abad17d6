// One step of a case: a call of the run, or a line of a script.
use crate::board::Board;
use crate::random::Random;
use crate::{line, value};
use std::alloc::{AllocError, Global};
use vectors::values::Values;

#[derive(Drop)]
pub enum Step {
    // a gate and a code
    Wake(u32, u32),
    // a port and a code
    Drive(u32, u32),
    // ticks, and the bytes of the trace buffer
    Advance(u32, usize),
    // a net
    Read(u32),
    // a line without its end, and the bytes of the output buffer and of the trace buffer
    Line(Vec<u8>, usize, usize),
}

fn any_code(random: &mut Random, values: Values) -> u32 {
    if random.once_in(12) {
        value::odd_code(random)
    } else {
        value::any(random, values)
    }
}

// A trace buffer: just enough for one tick, one byte less, some more, or plenty.
fn room(random: &mut Random, board: &Board) -> usize {
    let least = board.watches.saturating_mul(8);
    let bytes = match random.below(10) {
        0 => least,
        1 => least.saturating_sub(1),
        2 => random.below(least),
        3 | 4 | 5 => least.saturating_add(random.below(100)),
        _ => least.saturating_add(random.below(8_000)),
    };
    bytes as usize
}

fn call(random: &mut Random, board: &Board, values: Values) -> Step {
    match random.below(8) {
        0 => Step::Wake(line::place(random, board.gates), any_code(random, values)),
        1 | 2 | 3 => Step::Drive(line::place(random, board.ports), any_code(random, values)),
        4 | 5 => Step::Advance(line::ticks(random), room(random, board)),
        _ => Step::Read(line::place(random, board.nets)),
    }
}

// The buffers that a line is given: those that it wants, or now and then others.
fn lent(random: &mut Random) -> (usize, usize) {
    match random.below(40) {
        0 => (39_999, 16_384),
        1 => (40_000, 16_383),
        2 => (40_000, 16_385),
        3 => (0, 0),
        4 => (40_001, 16_384),
        _ => (40_000, 16_384),
    }
}

// The beginning of a case: a start level for every gate, then a value for every port. Left out, most
// nets stay unset and little happens.
pub fn first(random: &mut Random, board: &Board, values: Values, number: u32) -> Option<Step> {
    let code = value::any(random, values);
    match number.checked_sub(board.gates) {
        None => Some(Step::Wake(number, code)),
        Some(port) if port < board.ports => Some(Step::Drive(port, code)),
        Some(_) => None,
    }
}

// Steps about the last tick that a run may reach, for a board that never rests: each advance that is
// taken completes ten ticks, for its buffer has room for ten records.
pub fn at_the_end(values: Values, number: u32) -> Option<Step> {
    match number {
        0 => Some(Step::Wake(0, value::zero(values))),
        1 => Some(Step::Advance(16_777_217, 80)),
        2 => Some(Step::Advance(16_777_216, 80)),
        3 => Some(Step::Advance(16_777_207, 80)),
        4 => Some(Step::Advance(16_777_206, 80)),
        5 => Some(Step::Advance(u32::MAX, 80)),
        6 => Some(Step::Read(0)),
        _ => None,
    }
}

// Any step.
pub fn any(
    heap: Global,
    random: &mut Random,
    board: &Board,
    values: Values,
) -> Result<Step, AllocError> {
    if random.once_in(2) {
        return Ok(call(random, board, values));
    }
    let (out, trace) = lent(random);
    let text = line::line(heap, random, board, values)?;
    Ok(Step::Line(text, out, trace))
}
