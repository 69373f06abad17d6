// Compares the nine values, as they run, with the tables that IEEE 1164 publishes.

#![tactic(auto)]

mod compare;
mod published;

use compare::{agreeing_at_codes, agreeing_at_pairs};
use logic::family::Family;
use nine_values::nine::NineValues;
use published::{AND, NOT, OR, RESOLUTION, XOR};
use std::io;

fn main(rt: HostRuntime) -> io::Result<()> {
    let and = agreeing_at_pairs::<NineValues, _>(AND, NineValues::and);
    let or = agreeing_at_pairs::<NineValues, _>(OR, NineValues::or);
    let xor = agreeing_at_pairs::<NineValues, _>(XOR, NineValues::xor);
    let not = agreeing_at_codes::<NineValues, _>(NOT, NineValues::not);
    let resolution = agreeing_at_pairs::<NineValues, _>(RESOLUTION, NineValues::resolve);
    println!(rt; "and: {and} of 81 entries agree")?;
    println!(rt; "or: {or} of 81 entries agree")?;
    println!(rt; "xor: {xor} of 81 entries agree")?;
    println!(rt; "not: {not} of 9 entries agree")?;
    println!(rt; "resolution: {resolution} of 81 entries agree")
}
