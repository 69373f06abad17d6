ghost use Rattle.std.specs.Prelude.{OnOk};
ghost use Rattle.script_stream.specs.Verdicts.{Grows, SaysVerdict};

use crate::held::Held;
use crate::verdict::Verdict;
use calendar::calendar::Calendar;
use logic::named::Named;
use run::state::Run;
use run::state::compare::contradiction;
use script::line::answer_line;
use std::alloc::Global;
use std::io;
use std::io::{Read, Write};

// A script's line so far, its number, and the two buffers that every answer uses.
#[derive(Drop)]
struct Desk {
    held: Held,
    number: u32,
    out: Vec<u8>,
    trace: Vec<u8>,
}

// Works a whole script on a run, and writes the answers. Only the current line is kept, and of it no more than can be a command.
#[tactic(auto, using(crate::proofs::Growing::grows_same))]
pub fn work_script<F: Named, C: Calendar, R: Read, W: Write>(
    run: &mut Run<F, C>,
    input: &mut R,
    sink: &mut W,
    heap: Global,
) -> io::Result<()>
    ensures { OnOk result (Grows (W.contents sink.old) (W.contents sink.new)) }
{
    let mut desk = Desk {
        held: Held::new(),
        number: 0,
        out: vec![in heap; 0; 40_000]?,
        trace: vec![in heap; 0; 16_384]?,
    };
    let mut chunk = vec![in heap; 0; 65_536]?;
    // Kept as it is: a loop must be seen to end, and no contract says that a reader comes to its end.
    for _ in 0..u64::MAX {
        let n = input.read(chunk.as_mut_slice())?;
        if n == 0 {
            break;
        }
        desk.work_bytes(run, &chunk.as_slice()[..n], sink)?;
        sink.flush()?;
    }
    if !desk.held.text().is_empty() {
        desk.work_line(run, sink)?;
    }
    sink.flush()
}

// Works a script on each of two runs, and says whether the second run contradicts a definite level of the first.
pub fn work_both<F: Named, C: Calendar, D: Calendar, R: Read, S: Read, W: Write>(
    first: &mut Run<F, C>,
    script: &mut R,
    second: &mut Run<F, D>,
    other: &mut S,
    sink: &mut W,
    heap: Global,
) -> io::Result<()>
    ensures { OnOk result (SaysVerdict F.Family C.Calendar D.Calendar first.new second.new (W.contents sink.old) (W.contents sink.new)) }
{
    work_script(first, script, sink, heap)?;
    work_script(second, other, sink, heap)?;
    writeln!(sink, "{}", Verdict(contradiction(first, second)))?;
    sink.flush()
}

impl Desk {
    // Works the lines that end in these bytes, and keeps the start of the next.
    #[tactic(auto, using(crate::proofs::Growing::grows_same))]
    fn work_bytes<F: Named, C: Calendar, W: Write>(
        &mut self,
        run: &mut Run<F, C>,
        bytes: &[u8],
        sink: &mut W,
    ) -> io::Result<()>
        ensures { OnOk result (Grows (W.contents sink.old) (W.contents sink.new)) }
    {
        for b in bytes {
            if *b == b'\n' {
                self.work_line(run, sink)?;
            } else {
                self.held.push(*b);
            }
        }
        Ok(())
    }

    fn work_line<F: Named, C: Calendar, W: Write>(
        &mut self,
        run: &mut Run<F, C>,
        sink: &mut W,
    ) -> io::Result<()>
        ensures { OnOk result (Grows (W.contents sink.old) (W.contents sink.new)) }
    {
        self.number = self.number.saturating_add(1);
        let (end, _) = answer_line(
            run,
            self.held.text(),
            self.number,
            self.out.as_mut_slice(),
            self.trace.as_mut_slice(),
        );
        self.held.clear();
        // it always fits, but the contract says so only of a run whose life is known
        if let Some(answer) = self.out.as_slice().get(..end) {
            sink.write_all(answer)?;
        }
        Ok(())
    }
}
