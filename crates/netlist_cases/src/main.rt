// Looks over each damaged file of the table, and counts for each number the cases that came out as the rules say;
// number 0 counts the files that are accepted.

#![tactic(auto)]

mod build;
mod table;

use crate::build::{Case, Counts, Refusal};
use crate::table::{CASES, TINY};
use netlist::look_over::look_over;
use netlist::place::Netlist;
use std::alloc::Global;
use std::io;

// Whether the answer is the table's, and a refused file left the place as it was.
fn agrees(heap: Global, case: &Case) -> io::Result<bool> {
    let file = case.file(heap)?;
    let mut place = Netlist::new();
    let refusal = look_over(file.as_slice(), &mut place)
        .err()
        .map(Refusal::from);
    let held = if refusal.is_none() { case.board } else { TINY };
    Ok(refusal == case.refusal && Counts::from(place.inventory()) == held)
}

// Tries the cases of one refusal, or those that are accepted.
fn report(rt: &HostRuntime, number: Option<u8>) -> io::Result<()> {
    let heap = rt.alloc();
    let shown = number.unwrap_or(0);
    let agreed = CASES
        .iter()
        .filter(|case| case.number() == number)
        .map(|case| agrees(heap, case))
        .try_collect::<Vec<bool>>(heap)?;
    for (i, right) in agreed.iter().enumerate() {
        if !right {
            let case = i.saturating_add(1);
            println!(rt; "number {shown}: case {case} is wrong")?;
        }
    }
    let cases = agreed.len();
    let right = agreed.iter().filter(|right| **right).count();
    println!(rt; "number {shown}: {right} of {cases} cases")
}

fn main(rt: HostRuntime) -> io::Result<()> {
    report(&rt, None)?;
    for number in 1..11 {
        report(&rt, Some(number))?;
    }
    Ok(())
}
