// Lines in which a text stands many times over.

use crate::tables::fault::Fault;
use crate::tables::words::push_text;
use std::alloc::Global;

// A text that is repeated, how many times, and what stands behind it.
type Repeated<'a> = (&'a str, u64, &'a str);

// How often a text is repeated, if digits say it.
fn times(count: &str) -> Option<u64> {
    match count.parse::<u64>() {
        Ok(count) => Some(count),
        Err(_) => None,
    }
}

// What stands behind an opening parenthesis, if it is a repetition.
fn repeated(part: &str) -> Option<Repeated<'_>> {
    let (inside, behind) = part.split_once(')')?;
    let (text, count) = inside.split_once('*')?;
    match times(count) {
        Some(count) => Some((text, count, behind)),
        None => None,
    }
}

// Puts a text behind a line, so many times.
fn push_times(line: &mut String, text: &str, count: u64) -> Result<(), Fault> {
    for _ in 0..count {
        push_text(line, text)?;
    }
    Ok(())
}

// Puts what stands behind an opening parenthesis behind a line.
fn push_part(line: &mut String, part: &str) -> Result<(), Fault> {
    match repeated(part) {
        Some((text, count, behind)) => {
            push_times(line, text, count)?;
            push_text(line, behind)
        }
        None => {
            push_text(line, "(")?;
            push_text(line, part)
        }
    }
}

// Puts the parts of a line behind another, each of them behind an opening parenthesis but the first.
fn push_parts(whole: &mut String, line: &str) -> Result<(), Fault> {
    let mut parts = line.split('(');
    push_text(whole, parts.next().unwrap_or(""))?;
    for part in parts {
        push_part(whole, part)?;
    }
    Ok(())
}

/// The line with each `(TEXT*N)` as the text N times: `(0801*3)` stands for `080108010801`.
pub fn expanded(alloc: Global, line: &str) -> Result<String, Fault> {
    let mut whole = String::new(alloc);
    push_parts(&mut whole, line)?;
    Ok(whole)
}
