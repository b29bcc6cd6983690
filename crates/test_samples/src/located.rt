//! Where bytes are refused. Bytes and places are worked out by hand, from the protobuf encoding guide.

use buffa_fields::{Budget, DecodeError, Message, WireType};
use buffa_locate::{Locate, locate};
use sample_inventory::train::Train;
use sample_inventory::wagon::Wagon;
use sample_payment::payment::Payment;
use sample_recursive::task::Task;
use sample_stock::located::{order_of, refusal};
use sample_stock::messages::Order;
use std::alloc::Global;
use std::process::Abort;
use std::test::Fail;

// The bytes are refused at this place, which is told by names, at most so many levels deep, with so many units and one
// undeclared field.
fn is_refused_at<M: Locate + Message + Drop>(
    rt: &impl Abort,
    alloc: Global,
    bytes: &[u8],
    limits: (u32, usize),
    wanted: &str,
) -> Result<(), Fail> {
    let budget = Budget::new(1).with_element_memory(limits.1);
    let place = locate::<M>(alloc, bytes, limits.0, budget)?.ok_or("accepted")?;
    let said = format!(in alloc; "{place}")?;
    assert!(rt; said.as_str() == wanted);
    Ok(())
}

// Under the usual limits.
const USUAL: (u32, usize) = (100, 1_000_000);

#[test]
fn a_field_is_told_by_its_name(rt: HostRuntime) -> Result<(), Fail> {
    let alloc = rt.alloc();
    // the state's value is missing; its tag, too
    is_refused_at::<Order>(
        &rt,
        alloc,
        &[0x08],
        USUAL,
        ".state at byte 0: UnexpectedEof",
    )?;
    let bytes = [0x08, 0x01, 0x88];
    is_refused_at::<Order>(&rt, alloc, &bytes, USUAL, " at byte 2: UnexpectedEof")?;
    // the second field that isn't declared is one too many
    let many = ".7 at byte 2: UnknownFieldLimitExceeded";
    is_refused_at::<Order>(&rt, alloc, &[0x38, 0x01, 0x38, 0x01], USUAL, many)?;
    let place = locate::<Order>(alloc, &[0x08], 100, Budget::new(9))?.ok_or("accepted")?;
    let step = place.path.first().ok_or("no field")?;
    assert!(rt; step.number == 1 && step.name == Some("state") && step.index.is_none());
    assert!(rt; place.offset == 0 && place.fault == DecodeError::UnexpectedEof);
    Ok(())
}

#[test]
fn an_element_is_told_by_its_index(rt: HostRuntime) -> Result<(), Fail> {
    let alloc = rt.alloc();
    let bytes = [
        0x08, 0x01, // the state
        0x1A, 0x03, 0x0A, 0x01, 0x61, // a line of "a"
        0x1A, 0x05, 0x0A, 0x01, 0x62, // a line of "b",
        0x12, 0x00, // whose count is no number
    ];
    let line = refusal(alloc, &bytes)?.ok_or("accepted")?;
    assert!(rt; line.as_str() == "order.lines[1].count at byte 12: WireTypeMismatch 2 0 2");
    let wrong = DecodeError::WireTypeMismatch {
        field_number: 2,
        expected: WireType::Varint,
        actual: WireType::LengthDelimited,
    };
    assert!(rt; order_of(alloc, &bytes).err() == Some(wrong));
    // a line with a tag of number 0, and one with two fields that aren't declared
    let zero = ".lines[0] at byte 2: InvalidFieldNumber";
    is_refused_at::<Order>(&rt, alloc, &[0x1A, 0x01, 0x07], USUAL, zero)?;
    let many = ".lines[0].7 at byte 4: UnknownFieldLimitExceeded";
    let bytes = [0x1A, 0x04, 0x38, 0x01, 0x38, 0x01];
    is_refused_at::<Order>(&rt, alloc, &bytes, USUAL, many)
}

#[test]
fn what_is_read_has_no_place(rt: HostRuntime) -> Result<(), Fail> {
    let bytes = [0x08, 0x01, 0x1A, 0x03, 0x0A, 0x01, 0x61];
    assert!(rt; refusal(rt.alloc(), &bytes)?.is_none());
    Ok(())
}

#[test]
fn an_entry_is_told_by_its_index(rt: HostRuntime) -> Result<(), Fail> {
    let alloc = rt.alloc();
    let bytes = [
        0x22, 0x02, 0x12, 0x00, // a gift
        0x22, 0x07, 0x0A, 0x01, 0x6B, // one of the key "k",
        0x12, 0x02, 0x0A, 0x05, // whose good is cut
    ];
    let cut = ".gifts[1].good at byte 11: UnexpectedEof";
    is_refused_at::<Order>(&rt, alloc, &bytes, USUAL, cut)?;
    // the key is cut, and the fault is in the second of two values: the place is that of the entry
    let cut = ".gifts[0] at byte 0: UnexpectedEof";
    is_refused_at::<Order>(&rt, alloc, &[0x22, 0x02, 0x0A, 0x05], USUAL, cut)?;
    let bytes = [0x22, 0x06, 0x12, 0x00, 0x12, 0x02, 0x0A, 0x05];
    is_refused_at::<Order>(&rt, alloc, &bytes, USUAL, cut)?;
    // a key of another wire type, in front of a good of the same: the key is refused
    let bytes = [0x22, 0x06, 0x08, 0x01, 0x12, 0x02, 0x08, 0x01];
    let wrong = ".gifts[0] at byte 0: WireTypeMismatch 1 2 0";
    is_refused_at::<Order>(&rt, alloc, &bytes, USUAL, wrong)
}

#[test]
fn a_message_in_a_oneof_is_looked_into(rt: HostRuntime) -> Result<(), Fail> {
    let alloc = rt.alloc();
    // 5 is paid, and the transfer's day is a text
    let bytes = [0x08, 0x05, 0x22, 0x03, 0x12, 0x01, 0x61];
    let wrong = ".transfer.day at byte 4: WireTypeMismatch 2 0 2";
    is_refused_at::<Payment>(&rt, alloc, &bytes, USUAL, wrong)?;
    let deep = ".transfer at byte 0: RecursionLimitExceeded";
    is_refused_at::<Payment>(&rt, alloc, &[0x22, 0x00], (0, 9), deep)
}

#[test]
fn a_group_is_looked_into(rt: HostRuntime) -> Result<(), Fail> {
    let alloc = rt.alloc();
    // the frame's weight is a text
    let bytes = [0x1B, 0x0A, 0x00, 0x1C];
    let wrong = ".frame.weight at byte 1: WireTypeMismatch 1 0 2";
    is_refused_at::<Wagon>(&rt, alloc, &bytes, USUAL, wrong)?;
    // the second beam's weight is cut
    let bytes = [0x23, 0x08, 0x01, 0x24, 0x23, 0x08];
    let cut = ".beams[1].weight at byte 5: UnexpectedEof";
    is_refused_at::<Wagon>(&rt, alloc, &bytes, USUAL, cut)?;
    // a frame that has no end, and one with the end of another number, are refused themselves
    let cut = ".frame at byte 0: UnexpectedEof";
    is_refused_at::<Wagon>(&rt, alloc, &[0x1B, 0x08, 0x01], USUAL, cut)?;
    let other = ".frame at byte 0: InvalidEndGroup 1";
    is_refused_at::<Wagon>(&rt, alloc, &[0x1B, 0x0C], USUAL, other)
}

#[test]
fn a_message_in_its_own_type_is_looked_into(rt: HostRuntime) -> Result<(), Fail> {
    let alloc = rt.alloc();
    // a part of the task before it: its title is a number
    let bytes = [0x1A, 0x04, 0x12, 0x02, 0x08, 0x01];
    let wrong = ".before.parts[0].title at byte 4: WireTypeMismatch 1 2 0";
    is_refused_at::<Task>(&rt, alloc, &bytes, USUAL, wrong)?;
    // the task of the second day holds a person whose name is no text
    let bytes = [
        0x22, 0x02, 0x08, 0x01, // day 1
        0x22, 0x09, 0x08, 0x02, 0x12, 0x05, // day 2
        0x2A, 0x03, 0x0A, 0x01, 0xFF,
    ];
    let text = ".by_day[1].people[0].name at byte 12: InvalidUtf8";
    is_refused_at::<Task>(&rt, alloc, &bytes, USUAL, text)?;
    // one level is left, and two are needed
    let deep = ".before.parts[0] at byte 2: RecursionLimitExceeded";
    is_refused_at::<Task>(&rt, alloc, &[0x1A, 0x02, 0x12, 0x00], (1, 1_000_000), deep)
}

#[test]
fn units_are_spent_on_the_way(rt: HostRuntime) -> Result<(), Fail> {
    let alloc = rt.alloc();
    // a wagon in a list costs 392, and a load in a list of it 56
    let bytes = [0x12, 0x04, 0x12, 0x00, 0x12, 0x00];
    let much = ".spares[0].loads[1] at byte 4: ElementMemoryLimitExceeded";
    is_refused_at::<Train>(&rt, alloc, &bytes, (9, 503), much)?;
    let much = ".spares[0].loads[0] at byte 2: ElementMemoryLimitExceeded";
    is_refused_at::<Train>(&rt, alloc, &bytes, (9, 447), much)?;
    let much = ".spares[0] at byte 0: ElementMemoryLimitExceeded";
    is_refused_at::<Train>(&rt, alloc, &bytes, (9, 391), much)
}
