// Zigzag by itself.

use buffa_wire::types::{
    zigzag_decode_i32, zigzag_decode_i64, zigzag_encode_i32, zigzag_encode_i64,
};
use conformance_rows::case::Case;
use conformance_rows::fault::Fault;
use conformance_rows::mark::Mark;
use conformance_rows::outcome::{Outcome, got, two_in_words};
use std::alloc::Global;

// The zigzag of an i32, and the number of that zigzag.
fn of_32(mark: &mut Mark, alloc: Global, number: i32) -> (u64, i64, bool) {
    mark.begin(alloc);
    let folded = zigzag_encode_i32(number);
    let back = zigzag_decode_i32(folded);
    let refused = mark.end();
    (u64::from(folded), i64::from(back), refused)
}

// The same of an i64.
fn of_64(mark: &mut Mark, alloc: Global, number: i64) -> (u64, i64, bool) {
    mark.begin(alloc);
    let folded = zigzag_encode_i64(number);
    let back = zigzag_decode_i64(folded);
    let refused = mark.end();
    (folded, back, refused)
}

/// The zigzag of a number, and the number of that zigzag.
pub fn zigzag(alloc: Global, case: &Case<'_>, mark: &mut Mark) -> Result<Outcome, Fault> {
    let (folded, back, refused) = match case.types {
        "sint32" => of_32(mark, alloc, case.input().parse::<i32>()?),
        "sint64" => of_64(mark, alloc, case.input().parse::<i64>()?),
        _ => return Err(Fault::Form),
    };
    let words = two_in_words(alloc, &folded, &back)?;
    let none = Ok(String::new(alloc));
    Outcome::of_words(alloc, got(alloc, true), Ok(words), none, refused)
}
