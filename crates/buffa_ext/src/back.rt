//! What is set is read back.

ghost use Rattle.std.specs.Prelude.{◌≡◌, ◌≢◌, ◌≤◌, ◌+◌, ◌⊎◌, [], length, IfOk, OnOk, OnErr};
ghost use Rattle.buffa_wire.specs.Records.{Held};
ghost use Rattle.buffa_codec.specs.Decoded.{Refuses};
ghost use Rattle.buffa_ext.specs.SetsAndClears.{IsSet, IsSetUnread};

use crate::descriptor::Extension;
use crate::set::ExtensionSet;
use buffa_codec::ExtensionCodec;
use buffa_wire::EncodeError;
use std::alloc::Global;

/// Sets a value, and reads what is there then: the value, or what the codec makes of its records. The value
/// stays set; the rest of the message stays as it is.
///
/// # Errors
/// Those of [`ExtensionSet::set_extension`], nothing is changed then; or out of memory for the reading, the
/// value is set then. Where reading takes no memory, nothing is changed on any error.
///
/// ```ignore
/// let stored = set_then_read(alloc, &mut carrier, &ext, value)?; // Some(value)
/// ```
pub fn set_then_read<M: ExtensionSet, C: ExtensionCodec, D>(
    alloc: Global,
    message: &mut M,
    ext: &Extension<C, D>,
    value: C::Value,
) -> Result<C::Output, EncodeError>
    requires extendee { ext.now.extendee.now ≡ M.fqn }
    requires normal { C.normal (C.meaning value) }
    ensures value { IfOk result (λ o. C.holds (C.meaning value) (C.answer o)) }
    ensures ok { OnOk result (IsSet ext.now.number (C.extension_data (C.meaning value)) (M.fields_of message.old)
        (M.fields_of message.new)) }
    ensures err { OnErr result (let v = C.meaning value in (message.new ≡ message.old)
        ⊎ IsSetUnread ext.now.number (C.extension_data v) (C.refusal v) C.asks (M.fields_of message.old)
        (M.fields_of message.new)) }
    ensures full { OnErr result ((C.extension_data (C.meaning value) ≢ []) ⊎ C.asks (C.extension_data (C.meaning value))) }
    ensures room { (M.fields_of message.old).spare ≤ (M.fields_of message.new).spare
        + length (C.extension_data (C.meaning value)) }
    ensures unchanged { C.never_fails → OnErr result (message.new ≡ message.old) }
    ensures refused { Refuses result (C.refusal (C.meaning value)) }
    ensures fits { OnOk result (C.fits (C.meaning value)) }
    ensures rest { (w : Held) × (message.new ≡ M.with_fields message.old w) }
{
    message.set_extension(alloc, ext, value)?;
    Ok(message.extension(alloc, ext)?)
}
