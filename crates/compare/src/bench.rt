// Holds the bench to the outside vectors.
use crate::make::Make;
use board_file::file::board_of;
use calendar::calendar::Calendar;
use calendar::entry::Entry;
use heap::heap::Heap;
use logic::named::Named;
use netlist::place::Netlist;
use nine_values::nine::NineValues;
use pull_ranges::pulls::PullRanges;
use run::state::Run;
use script::line::answer_line;
use std::alloc::{AllocError, Global};
use vectors::values::Values;
use vectors::vector;
use vectors::vector::Vector;
use wheel::wheel::Wheel;

// Answers every line of a script.
fn all_lines<F: Named, C: Calendar>(
    heap: Global,
    run: &mut Run<F, C>,
    script: &str,
) -> Result<Vec<u8>, AllocError> {
    let mut answers = Vec::new(heap);
    let mut output = vec![in heap; 0u8; 40_000]?;
    let mut trace = vec![in heap; 0u8; 16_384]?;
    for (number, line) in (1..u32::MAX).zip(script.lines()) {
        let (count, _) = answer_line(
            run,
            line.as_bytes(),
            number,
            output.as_mut_slice(),
            trace.as_mut_slice(),
        );
        let text = output.as_slice().get(..count).unwrap_or(b"");
        answers.extend_from_slice(text)?;
    }
    Ok(answers)
}

// What the bench answers to a vector's script on one make of calendar.
// Kept as it is: one function for this and those of `play` takes the work as a trait with a generic method; no call of it proves.
fn answers(heap: Global, make: Make, v: &Vector) -> Result<Vec<u8>, AllocError> {
    let Ok(board) = board_of(v.board.as_slice()) else {
        return Ok(Vec::new(heap));
    };
    match make {
        Make::Heap => answers_on_heap(heap, board, v),
        Make::Wheel => answers_on_wheel(heap, board, v),
    }
}

fn answers_on_heap(heap: Global, board: Netlist, v: &Vector) -> Result<Vec<u8>, AllocError> {
    let mut entries = vec![in heap; Entry::BLANK; 65_536]?;
    let calendar = Heap::new(entries.as_mut_slice());
    match v.values {
        Values::Nine => {
            let mut run: Run<NineValues, Heap> = Run::open(board, calendar);
            all_lines(heap, &mut run, v.script.as_str())
        }
        Values::Pulls => {
            let mut run: Run<PullRanges, Heap> = Run::open(board, calendar);
            all_lines(heap, &mut run, v.script.as_str())
        }
    }
}

fn answers_on_wheel(heap: Global, board: Netlist, v: &Vector) -> Result<Vec<u8>, AllocError> {
    let mut slots = vec![in heap; 0; 65 * 1024]?;
    let calendar = Wheel::new(slots.as_mut_slice());
    match v.values {
        Values::Nine => {
            let mut run: Run<NineValues, Wheel> = Run::open(board, calendar);
            all_lines(heap, &mut run, v.script.as_str())
        }
        Values::Pulls => {
            let mut run: Run<PullRanges, Wheel> = Run::open(board, calendar);
            all_lines(heap, &mut run, v.script.as_str())
        }
    }
}

// How many of the outside vectors the bench answers as it must, and how many there are.
pub fn agreeing(heap: Global, make: Make) -> Result<(usize, usize), AllocError> {
    let all = vector::all(heap)?
        .iter()
        .map(|v| answers(heap, make, v).map(|text| v.agrees(text.as_slice())))
        .try_collect::<Vec<bool>>(heap)?;
    Ok((all.iter().filter(|good| **good).count(), all.len()))
}
