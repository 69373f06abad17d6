// Compares what the two sides answer to a line of a script.
use crate::play::{FILL, holds};
use crate::tally::Tally;
use crate::told;
use calendar::calendar::Calendar;
use logic::named::Named;
use oracle::simulator::Simulator;
use oracle::{script as own_script, simulator};
use run::state::Run;
use script::line::answer_line;
use std::alloc::{AllocError, Global};

// Answers one line on both sides; `out` and `room` are the lengths of the buffers.
pub fn same_line<F: Named, C: Calendar>(
    heap: Global,
    tally: &mut Tally,
    run: &mut Run<F, C>,
    sim: &mut Simulator,
    line: &[u8],
    out: usize,
    room: usize,
) -> Result<bool, AllocError> {
    let mut output = vec![in heap; FILL; out]?;
    let mut trace = vec![in heap; FILL; room]?;
    tally.lines = tally.lines.saturating_add(1);
    let number = u32::try_from(tally.lines).unwrap_or(u32::MAX);
    let (count, fault) = answer_line(
        run,
        line,
        number,
        output.as_mut_slice(),
        trace.as_mut_slice(),
    );
    let own = own_script::answer_line(heap, sim, line, number, out, room)?;
    let records = simulator::trace(heap, own.records.as_slice())?;
    let told = told::same(
        tally,
        fault.map_or(Ok(()), Err),
        own.fault.map_or(Ok(()), Err),
    );
    Ok(
        told && count == own.text.len()
            && holds(output.as_slice(), own.text.as_bytes())
            && holds(trace.as_slice(), records.as_slice()),
    )
}
