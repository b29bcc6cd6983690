//! Tasks in tasks: what is required is asked for at any depth. The bytes are worked out by hand, from the protobuf encoding guide.

use buffa_fields::messages::required::Required;
use buffa_wire::{Blank, Message};
use sample_recursive::agenda::Agenda;
use sample_recursive::task::Task;
use std::alloc::Global;
use std::test::Fail;

/// Whether all that is required is there in a task with a title, and with these fields.
fn is_whole(alloc: Global, fields: &[u8]) -> Result<bool, Fail> {
    let mut task = Task::blank(alloc);
    task.merge_from_slice(alloc, &[0x0A, 0x00])?;
    task.merge_from_slice(alloc, fields)?;
    Ok(task.is_initialized())
}

#[test]
fn a_task_has_a_title(rt: HostRuntime) -> Result<(), Fail> {
    let alloc = rt.alloc();
    assert!(rt; !Task::blank(alloc).is_initialized());
    assert!(rt; is_whole(alloc, &[])?);
    Ok(())
}

#[test]
fn so_does_each_task_in_it(rt: HostRuntime) -> Result<(), Fail> {
    let alloc = rt.alloc();
    // A part, the task before, that of day 7, and a part of a part.
    assert!(rt; is_whole(alloc, &[0x12, 0x02, 0x0A, 0x00])?);
    assert!(rt; !is_whole(alloc, &[0x12, 0x00])?);
    assert!(rt; !is_whole(alloc, &[0x12, 0x02, 0x0A, 0x00, 0x12, 0x00])?);
    assert!(rt; is_whole(alloc, &[0x1A, 0x02, 0x0A, 0x00])?);
    assert!(rt; !is_whole(alloc, &[0x1A, 0x00])?);
    assert!(rt; is_whole(alloc, &[0x22, 0x06, 0x08, 0x07, 0x12, 0x02, 0x0A, 0x00])?);
    assert!(rt; !is_whole(alloc, &[0x22, 0x04, 0x08, 0x07, 0x12, 0x00])?);
    assert!(rt; is_whole(alloc, &[0x12, 0x06, 0x0A, 0x00, 0x12, 0x02, 0x0A, 0x00])?);
    assert!(rt; !is_whole(alloc, &[0x12, 0x04, 0x0A, 0x00, 0x12, 0x00])?);
    assert!(rt; !is_whole(alloc, &[0x12, 0x04, 0x12, 0x02, 0x0A, 0x00])?);
    Ok(())
}

#[test]
fn each_person_in_a_task_has_a_name(rt: HostRuntime) -> Result<(), Fail> {
    let alloc = rt.alloc();
    assert!(rt; is_whole(alloc, &[0x2A, 0x02, 0x0A, 0x00])?);
    assert!(rt; !is_whole(alloc, &[0x2A, 0x00])?);
    assert!(rt; !is_whole(alloc, &[0x12, 0x04, 0x0A, 0x00, 0x2A, 0x00])?);
    // In a oneof, too: a room has nothing that is required, and a host has a name.
    assert!(rt; is_whole(alloc, &[0x30, 0x05])?);
    assert!(rt; is_whole(alloc, &[0x3A, 0x02, 0x0A, 0x00])?);
    assert!(rt; !is_whole(alloc, &[0x3A, 0x00])?);
    assert!(rt; !is_whole(alloc, &[0x1A, 0x04, 0x0A, 0x00, 0x3A, 0x00])?);
    Ok(())
}

#[test]
fn tasks_are_looked_into_from_outside(rt: HostRuntime) -> Result<(), Fail> {
    let alloc = rt.alloc();
    let mut agenda = Agenda::blank(alloc);
    assert!(rt; agenda.is_initialized());
    agenda.merge_from_slice(alloc, &[0x0A, 0x06, 0x0A, 0x00, 0x12, 0x02, 0x0A, 0x00])?;
    assert!(rt; agenda.is_initialized());
    agenda.merge_from_slice(alloc, &[0x0A, 0x04, 0x0A, 0x00, 0x12, 0x00])?;
    assert!(rt; !agenda.is_initialized());
    Ok(())
}
