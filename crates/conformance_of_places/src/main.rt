//! Prints of each line of the input where bytes are refused: the fields by their numbers, the offset and the fault, or that they
//! are read.
//!
//! A line has a type of messages, how many levels, unknown fields and units of element memory reading may take, and the bytes in
//! hexadecimal, a tab before each but the first.
#![tactic(auto)]

mod types;

use crate::types::place_in;
use anyhow::Error;
use std::io::Read;

// Prints a line for each of the lines.
fn print_places(rt: &HostRuntime, lines: &str) -> Result<(), Error> {
    let alloc = rt.alloc();
    for line in lines.lines() {
        let place = place_in(alloc, line)?;
        println!(rt; "{place}")?;
    }
    Ok(())
}

fn main(rt: HostRuntime) -> Result<(), Error> {
    let mut input = Vec::new(rt.alloc());
    rt.stdin().read_to_end(&mut input)?;
    let text = str::from_utf8(&input)?;
    print_places(&rt, text)
}
