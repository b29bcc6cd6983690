//! Outlines are read, sized and written. The bytes were worked out by hand.

use buffa_wire::{Blank, Message};
use sample_outline::outline::Outline;
use sample_outline::outline_mark::OutlineMark;
use sample_outline::outline_source::OutlineSource;
use std::test::Fail;

// The title of a part, or no text.
fn title(outline: &Outline) -> &str {
    match &outline.title {
        Some(title) => title.as_str(),
        None => "",
    }
}

// How wide the first part of a part is.
fn width_inside(outline: &Outline, at: usize) -> Option<i32> {
    outline.parts.get(at)?.parts.first()?.width
}

// A title "a"; two parts, one titled "b", and one with a part that is 5 wide; 7 wide; one titled "c" beside it; one that is
// 2 wide, by the number 3; a bold mark by the number 1; the page 12; and then what isn't declared: a mark 5 by the number 2,
// and a field of number 20.
#[test]
fn outlines_come_back(rt: HostRuntime) -> Result<(), Fail> {
    let alloc = rt.alloc();
    let bytes = [
        10, 1, 97, 18, 3, 10, 1, 98, 18, 4, 18, 2, 24, 5, 24, 7, 34, 3, 10, 1, 99, 42, 6, 8, 3, 18,
        2, 24, 2, 50, 4, 8, 1, 16, 1, 64, 12, 50, 4, 8, 2, 16, 5, 160, 1, 1,
    ];
    let mut outline = Outline::blank(alloc);
    outline.merge_from_slice(alloc, &bytes)?;
    assert!(rt; title(&outline) == "a");
    assert!(rt; outline.parts.len() == 2);
    assert!(rt; title(&outline.parts[0]) == "b");
    assert!(rt; width_inside(&outline, 1) == Some(5));
    assert!(rt; outline.width == Some(7));
    match &outline.beside {
        Some(beside) => assert!(rt; title(beside) == "c"),
        None => assert!(rt; false),
    }
    match outline.by_number.get(&3) {
        Some(third) => assert!(rt; third.width == Some(2)),
        None => assert!(rt; false),
    }
    assert!(rt; outline.marks.len() == 1);
    assert!(rt; outline.marks.get(&1) == Some(&OutlineMark::Bold));
    match &outline.source {
        Some(OutlineSource::Page(page)) => assert!(rt; *page == 12),
        _ => assert!(rt; false),
    }
    let written = outline.try_encode_to_vec(alloc)?;
    assert!(rt; written.as_slice() == &bytes[..]);
    Ok(())
}

// Members may come in any order: a second message beside it is merged into the first, parts go behind one another, and of
// the cases of where it is from the last one counts.
#[test]
fn fields_come_in_any_order(rt: HostRuntime) -> Result<(), Fail> {
    let alloc = rt.alloc();
    let mut outline = Outline::blank(alloc);
    outline.merge_from_slice(
        alloc,
        &[
            34, 2, 24, 5, 64, 1, 18, 0, 34, 3, 10, 1, 99, 24, 7, 74, 2, 8, 3, 18, 2, 24, 1,
        ],
    )?;
    let written = outline.try_encode_to_vec(alloc)?;
    let all = [
        18, 0, 18, 2, 24, 1, 24, 7, 34, 5, 10, 1, 99, 24, 5, 74, 2, 8, 3,
    ];
    assert!(rt; written.as_slice() == &all[..]);
    Ok(())
}

// A part that is refused isn't put, and what came before it stays.
#[test]
fn refused_parts_are_not_put(rt: HostRuntime) -> Result<(), Fail> {
    let alloc = rt.alloc();
    let mut outline = Outline::blank(alloc);
    let answer = outline.merge_from_slice(alloc, &[18, 2, 24, 1, 18, 2, 24]);
    assert!(rt; answer.is_err());
    assert!(rt; outline.parts.len() == 1);
    Ok(())
}
