//! Changes in place of the records of one number, by which an extension is set or cleared.

ghost use Rattle.std.specs.Prelude.{◌≡◌, ◌≢◌, ◌↔◌, ◌++◌, ◌==◌, ◌≤◌, ◌+◌, IsTrue, IsOk, [], length, not, OnOk, OnErr};
ghost use Rattle.buffa_wire.specs.RecordsOfValues.{record_of};
ghost use Rattle.buffa_codec.specs.RecordsOfNumber.{sub, without};

use buffa_wire::{UnknownField, UnknownFields};
use std::alloc::AllocError;

/// Whether a record of the number is there.
pub fn has_number(fields: &UnknownFields, number: u32) -> bool
    ensures { IsTrue result ↔ (sub number fields.now.records ≢ []) }
{
    for field in fields.iter().as_slice() {
        if field.number == number {
            return true;
        }
    }
    false
}

/// Takes the records of the number out. It takes no memory.
pub fn remove(fields: &mut UnknownFields, number: u32)
    ensures records { fields.new.records ≡ without number fields.old.records }
    ensures room { fields.old.spare ≤ fields.new.spare }
{
    fields.retain(
        |field: &UnknownField| -> bool
            ensures { result ≡ not ((record_of field.now).0 == number) }
        { field.number != number },
    );
}

/// Puts the staged records in the place of those of the number, behind the others. No other record is
/// copied.
///
/// # Errors
/// Where memory runs out; nothing is changed then.
pub fn replace(
    fields: &mut UnknownFields,
    number: u32,
    staged: UnknownFields,
) -> Result<(), AllocError>
    ensures ok { OnOk result (fields.new.records ≡ without number fields.old.records ++ staged.records) }
    ensures err { OnErr result (fields.new ≡ fields.old) }
    ensures room { fields.old.spare ≤ fields.new.spare + length staged.records }
    ensures succeeds { length staged.records ≤ fields.old.spare → IsOk result }
{
    fields.reserve(staged.len())?;
    remove(fields, number);
    fields.append(staged);
    Ok(())
}
