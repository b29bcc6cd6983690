//! The traits of codecs of extensions: what they do, and what each of them proves.

ghost use Rattle.std.specs.Prelude.{◌≡◌, ◌≢◌, ℕ, List, [], ◌∷◌, ◌++◌, Option, Some, None, option_map};
ghost use Rattle.std.specs.Prelude.{OnOk, OnErr, IfOk};
ghost use Rattle.std.specs.Prelude.{IsOk, ◌+◌, ◌-◌, ◌<◌, ◌≤◌, length, vec_capacity, vec_len};
ghost use Rattle.buffa_bytes.specs.declared.error.EncodeError.{EncodeError};
ghost use Rattle.buffa_bytes.specs.Written.{UsesRoom};
ghost use Rattle.buffa_wire.specs.BudgetLeft.{BudgetLeft, Covers, Pays, budget_left, defaults};
ghost use Rattle.buffa_wire.specs.Records.{FieldData, bytes};
ghost use Rattle.buffa_wire.specs.RecordsOfValues.{field_data_of};
ghost use Rattle.buffa_codec.specs.RecordsOfNumber.{sub, tagged};
ghost use Rattle.buffa_codec.specs.Decoded.{Adds, AddsSome, AddsSomeValues, AddsValues, KeepsCapacity, LeavesIn, Refuses};
ghost use Rattle.buffa_codec.specs.Decoded.{SpendsIn, UsesVecRoom, one_in};

use buffa_wire::{
    Blank, DecodeContext, EncodeError, UnknownField, UnknownFieldData, UnknownFields,
};
use std::alloc::{AllocError, Global};

/// How the value of an extension is read from the records of its number, and written as such records.
///
/// ```ignore
/// let value = Int32::decode(alloc, 7, &fields)?;
/// Repeated::<Int32>::encode(alloc, 7, vec![in alloc; 3, 300]?, &mut fields)?;
/// ```
pub trait ExtensionCodec {
    /// The Rust type of the values that are written.
    ///
    /// ```ignore
    /// type Value = Vec<C::Value>;
    /// ```
    type Value;

    /// The Rust type of what is read: an option for one value, a `Vec` for a list.
    ///
    /// ```ignore
    /// type Output = Option<C::Value>;
    /// ```
    type Output;

    /// What two values have in common that mean the same.
    ghost Meaning: { Type 0 };

    /// The meanings of what is read.
    ghost Answer: { Type 0 };

    /// What a value means.
    ghost meaning: { Self.Value → Meaning };

    /// What an output means.
    ghost answer: { Self.Output → Answer };

    /// Whether the records of the number may be read as that.
    ghost reads: { List FieldData → Answer → Type 0 };

    /// The records of a value.
    ghost extension_data: { Meaning → List FieldData };

    /// Why a value can't be written, memory aside.
    ghost refusal: { Meaning → Option EncodeError };

    /// The values that are written, where memory is.
    ghost fits: { Meaning → Type 0 };

    /// The values whose records are read back.
    ghost normal: { Meaning → Type 0 };

    /// What the records of a value are read as.
    ghost holds: { Meaning → Answer → Type 0 };

    /// Reading takes no memory.
    ghost never_fails: { Type 0 };

    /// The values that are written without memory where the list has spare capacity for their records.
    ghost in_room: { Meaning → Type 0 };

    /// Whether reading these records of the number takes memory. Of a codec of one value, only the record that counts does.
    ghost asks: { List FieldData → Type 0 };

    /// Reads the records of the number.
    ///
    /// # Errors
    /// Where memory runs out, and never with codecs of numbers. A message may take memory also for an encoding that it refuses.
    ///
    /// ```ignore
    /// let value = Int32::decode(alloc, 7, &fields)?;
    /// ```
    fn decode(
        alloc: Global,
        number: u32,
        fields: &UnknownFields,
    ) -> Result<Self::Output, AllocError>
        ensures reads { IfOk result (λ o. reads (sub number fields.now.records) (answer o)) }
        ensures always { never_fails → IsOk result }
        ensures full { OnErr result (asks (sub number fields.now.records)) };

    /// Puts the records of the value behind the others.
    ///
    /// # Errors
    /// What is wrong with the value, or out of memory; a beginning of its records is there then, and not all. No
    /// spare capacity is lost.
    ///
    /// ```ignore
    /// <Int32 as ExtensionCodec>::try_encode(alloc, 1, 5, &mut fields)?; // 08 05
    /// ```
    fn try_encode(
        alloc: Global,
        number: u32,
        value: Self::Value,
        fields: &mut UnknownFields,
    ) -> Result<(), EncodeError>
        ensures ok { OnOk result (Adds fields.old.records (tagged number (extension_data (meaning value))) fields.new.records) }
        ensures err { OnErr result (AddsSome fields.old.records (tagged number (extension_data (meaning value)))
            fields.new.records) }
        ensures refused { Refuses result (refusal (meaning value)) }
        ensures room { KeepsCapacity fields.old fields.new }
        ensures reserved { in_room (meaning value) → length (extension_data (meaning value)) ≤ fields.old.spare → IsOk result }
        ensures fits { OnOk result (fits (meaning value)) };

    /// The same as [`ExtensionCodec::try_encode`].
    ///
    /// # Errors
    /// Those of [`ExtensionCodec::try_encode`].
    ///
    /// ```ignore
    /// <Int32 as ExtensionCodec>::encode(alloc, 7, -7, &mut fields)?; // 38 F9 FF FF FF FF FF FF FF FF 01
    /// ```
    fn encode(
        alloc: Global,
        number: u32,
        value: Self::Value,
        fields: &mut UnknownFields,
    ) -> Result<(), EncodeError>
        ensures ok { OnOk result (Adds fields.old.records (tagged number (extension_data (meaning value))) fields.new.records) }
        ensures err { OnErr result (AddsSome fields.old.records (tagged number (extension_data (meaning value)))
            fields.new.records) }
        ensures refused { Refuses result (refusal (meaning value)) }
        ensures room { KeepsCapacity fields.old fields.new }
        ensures reserved { in_room (meaning value) → length (extension_data (meaning value)) ≤ fields.old.spare → IsOk result }
        ensures fits { OnOk result (fits (meaning value)) }
    {
        Self::try_encode(alloc, number, value, fields)
    }

    /// The records of a value are read back.
    ghost reads_back: { (v : Meaning) (o : Answer) → fits v → normal v → reads (extension_data v) o → holds v o };
}

/// How one record is read as a value, and a value is written as one record.
///
/// ```ignore
/// let payload = <Int32 as SingularCodec>::encode_one(alloc, &5)?; // UnknownFieldData::Varint(5)
/// let value = <Int32 as SingularCodec>::decode_one(alloc, &payload)?; // Some(5)
/// ```
pub trait SingularCodec {
    /// The Rust type of the values.
    ///
    /// ```ignore
    /// type Value = String;
    /// ```
    type Value: Blank;

    /// What a record is read as, at a depth and of what is left of a budget.
    ghost one: { ℕ → BudgetLeft → FieldData → Option Self.Value.Meaning };

    /// What reading a record may leave of a budget.
    ghost leaves: { ℕ → BudgetLeft → FieldData → BudgetLeft → Type 0 };

    /// The packed values in bytes.
    ghost packed: { List ℕ → List Self.Value.Meaning };

    /// The record of a value.
    ghost field_data: { Self.Value.Meaning → FieldData };

    /// Why a value can't be written, memory aside.
    ghost refusal: { Self.Value.Meaning → Option EncodeError };

    /// The values that are written, where memory is.
    ghost fits: { Self.Value.Meaning → Type 0 };

    /// The values whose record is read back.
    ghost normal: { Self.Value.Meaning → Type 0 };

    /// What the record of a value is read as: mostly that value.
    ghost back: { Self.Value.Meaning → Self.Value.Meaning };

    /// What a record costs that is read as a value.
    ghost cost: { FieldData → BudgetLeft };

    /// The most that reading a record spends, at a depth.
    ghost most: { ℕ → FieldData → BudgetLeft };

    /// Neither reading nor writing one record takes memory.
    ghost never_fails: { Type 0 };

    /// The values whose record is made without memory.
    ghost made_free: { Self.Value.Meaning → Type 0 };

    /// Whether reading a record takes memory.
    ghost asks: { FieldData → Type 0 };

    /// Reads a record under a default budget, 100 levels deep.
    ///
    /// # Errors
    /// Where memory runs out, and never with codecs of numbers. A message may take memory also for an encoding that it refuses.
    ///
    /// ```ignore
    /// let value = <Int32 as SingularCodec>::decode_one(alloc, &payload)?; // of UnknownFieldData::Varint(5): Some(5)
    /// ```
    fn decode_one(
        alloc: Global,
        payload: &UnknownFieldData,
    ) -> Result<Option<Self::Value>, AllocError>
        ensures reads { IfOk result (λ o. option_map Self.Value.meaning o ≡ one 100 defaults (field_data_of payload.now)) }
        ensures always { never_fails → IsOk result }
        ensures full { OnErr result (asks (field_data_of payload.now)) };

    /// Reads a record at the context's depth, of what its budget has left.
    ///
    /// # Errors
    /// Where memory runs out, and never with codecs of numbers. A message may take memory also for an encoding that it refuses.
    /// What was spent stays spent, and is no more than the record may cost.
    ///
    /// ```ignore
    /// let value = <Int32 as SingularCodec>::decode_one_ctx(alloc, &payload, ctx)?;
    /// ```
    fn decode_one_ctx(
        alloc: Global,
        payload: &UnknownFieldData,
        ctx: DecodeContext<'_>,
    ) -> Result<Option<Self::Value>, AllocError>
        ensures reads { IfOk result (λ o. option_map Self.Value.meaning o
            ≡ one_in one ctx.entry (field_data_of payload.now)) }
        ensures leaves { IsOk result → LeavesIn leaves ctx.entry (field_data_of payload.now) (budget_left ctx.exit) }
        ensures spent { OnErr result (Covers ctx.entry.budget.now (budget_left ctx.exit)) }
        ensures most { SpendsIn most ctx.entry (field_data_of payload.now) (budget_left ctx.exit) }
        ensures always { never_fails → IsOk result }
        ensures full { OnErr result (asks (field_data_of payload.now)) };

    /// Puts the packed values behind the others.
    ///
    /// # Errors
    /// Where memory runs out, if they don't fit in the vector, whose capacity gets no smaller; a beginning of the
    /// values is there then, and not all.
    ///
    /// ```ignore
    /// <Int32 as SingularCodec>::decode_packed(&bytes, &mut out)?; // of AC 02: 300
    /// ```
    fn decode_packed(bytes: &[u8], out: &mut Vec<Self::Value>) -> Result<(), AllocError>
        ensures ok { OnOk result (AddsValues Self.Value.meaning out.old.items (packed bytes.now) out.new.items) }
        ensures err { OnErr result (AddsSomeValues Self.Value.meaning out.old.items (packed bytes.now) out.new.items) }
        ensures room { UsesVecRoom result (vec_capacity out.old - vec_len out.old) (packed bytes.now)
            (vec_capacity out.new - vec_len out.new) }
        ensures capacity { vec_capacity out.old ≤ vec_capacity out.new }
        ensures full { OnErr result (packed bytes.now ≢ []) };

    /// The record of a value.
    ///
    /// # Errors
    /// What is wrong with the value, or out of memory.
    ///
    /// ```ignore
    /// let payload = <Int32 as SingularCodec>::try_encode_one(alloc, &5)?; // UnknownFieldData::Varint(5)
    /// ```
    fn try_encode_one(alloc: Global, value: &Self::Value) -> Result<UnknownFieldData, EncodeError>
        ensures record { IfOk result (λ d. field_data_of d ≡ field_data (Self.Value.meaning value.now)) }
        ensures refused { Refuses result (refusal (Self.Value.meaning value.now)) }
        ensures fits { OnOk result (fits (Self.Value.meaning value.now)) }
        ensures always { never_fails → IsOk result }
        ensures free { made_free (Self.Value.meaning value.now) → IsOk result };

    /// The same as [`SingularCodec::try_encode_one`].
    ///
    /// # Errors
    /// Those of [`SingularCodec::try_encode_one`].
    ///
    /// ```ignore
    /// let payload = <Int32 as SingularCodec>::encode_one(alloc, &5)?; // UnknownFieldData::Varint(5)
    /// ```
    fn encode_one(alloc: Global, value: &Self::Value) -> Result<UnknownFieldData, EncodeError>
        ensures record { IfOk result (λ d. field_data_of d ≡ field_data (Self.Value.meaning value.now)) }
        ensures refused { Refuses result (refusal (Self.Value.meaning value.now)) }
        ensures fits { OnOk result (fits (Self.Value.meaning value.now)) }
        ensures always { never_fails → IsOk result }
        ensures free { made_free (Self.Value.meaning value.now) → IsOk result }
    {
        Self::try_encode_one(alloc, value)
    }

    /// The record of a value is read back, where its cost is left.
    ghost reads_field_data: { (v : _) (b : _) → fits v → normal v → Covers b (cost (field_data v)) → one 100 b (field_data v)
        ≡ Some (back v) };

    /// A record that is read as a value spends its cost.
    ghost spends_cost: { (b : _) (left : _) (d : _) (v : _) → one 100 b d ≡ Some v → leaves 100 b d left →
        Pays b (cost d) left };

    /// No record gives back what was spent.
    ghost spends: { (b left : BudgetLeft) (d : FieldData) → leaves 100 b d left → Covers b left };
}

/// How values are packed into the bytes of one record.
///
/// ```ignore
/// <Int32 as PackableCodec>::encode_packed(&300, &mut bytes)?; // AC 02
/// ```
pub trait PackableCodec: SingularCodec {
    /// The bytes of a value.
    ghost packed_encoding: { Self.Value.Meaning → List ℕ };

    /// Puts the bytes of a value behind the others.
    ///
    /// # Errors
    /// [`EncodeError::OutOfMemory`] alone, where they don't fit in the vector's spare capacity; nothing is changed then.
    ///
    /// ```ignore
    /// <Int32 as PackableCodec>::encode_packed(&300, &mut bytes)?; // AC 02
    /// ```
    fn encode_packed(value: &Self::Value, buf: &mut Vec<u8>) -> Result<(), EncodeError>
        ensures ok { OnOk result (buf.new.items ≡ buf.old.items ++ packed_encoding (Self.Value.meaning value.now)) }
        ensures err { OnErr result (buf.new.items ≡ buf.old.items) }
        ensures room { UsesRoom result (vec_capacity buf.old - vec_len buf.old)
            (packed_encoding (Self.Value.meaning value.now)) (vec_capacity buf.new - vec_len buf.new) }
        ensures refused { Refuses result None }
        ensures fits { OnOk result (Self.fits (Self.Value.meaning value.now)) };

    /// Packed bytes of values are read back.
    ghost unpacks: { (v : _) (rest : _) → Self.fits v → Self.packed (packed_encoding v ++ rest)
        ≡ Self.back v ∷ Self.packed rest };

    /// No bytes hold no values.
    ghost unpacks_none: { Self.packed [] ≡ [] };

    /// A record of bytes is no value of its own.
    ghost bytes_unread: { (b : BudgetLeft) (bs : List ℕ) → Self.one 100 b (bytes bs) ≡ None };

    /// A record of bytes costs nothing.
    ghost bytes_cost: { (b left : BudgetLeft) (bs : List ℕ) → Self.leaves 100 b (bytes bs) left → left ≡ b };
}

// Puts a record behind the others.
#[inline]
pub(crate) fn push_record(
    number: u32,
    payload: UnknownFieldData,
    fields: &mut UnknownFields,
) -> Result<(), EncodeError>
    ensures ok { OnOk result (Adds fields.old.records ((number, field_data_of payload) ∷ []) fields.new.records) }
    ensures err { OnErr result (fields.new ≡ fields.old) }
    ensures refused { Refuses result None }
    ensures room { KeepsCapacity fields.old fields.new }
    ensures reserved { 0 < fields.old.spare → IsOk result }
{
    Ok(fields.push(UnknownField { number, payload })?)
}
