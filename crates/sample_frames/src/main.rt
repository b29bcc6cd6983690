//! Prints a log: readings, one after the other, each behind its length. It holds one of them at a time.
#![tactic(auto)]

mod messages;

use crate::messages::reading::Reading;
use anyhow::Error;
use buffa_fields::Decode;
use buffa_frames::FrameReader;
use std::io::{BufReader, Read};

// The most bytes that a reading may have.
const LONGEST: usize = 1_000;

// Prints a line for each reading of the log, up to its end or to the first that is none.
fn print_log<R: Read + Drop>(rt: &HostRuntime, log: R) -> Result<(), Error> {
    let alloc = rt.alloc();
    let mut frames = FrameReader::new(alloc, log, LONGEST);
    for _ in 0..u64::MAX {
        if !frames.next_frame()? {
            return Ok(());
        }
        let reading = Reading::decode_from_slice(alloc, frames.frame())?;
        println!(rt; "{}: {}", reading.sensor, reading.value)?;
    }
    Ok(())
}

fn main(rt: HostRuntime) -> Result<(), Error> {
    let log = BufReader::new(rt.alloc(), rt.stdin())?;
    print_log(&rt, log)
}
