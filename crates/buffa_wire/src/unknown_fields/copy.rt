//! Copies of unknown fields.

ghost use Rattle.std.specs.Prelude.{◌≡◌, [], IfOk, IsOk};
ghost use Rattle.buffa_wire.specs.Records.{IsEmpty, IsNumeric};
ghost use Rattle.buffa_wire.specs.RecordsOfValues.{field_data_of, record_of};

use crate::unknown_fields::{UnknownField, UnknownFieldData, UnknownFields};
use std::alloc::AllocError;

impl UnknownField {
    /// An equal field, groups and all, whose memory comes from the same allocator.
    ///
    /// # Errors
    /// Where memory runs out; a number takes none, nor do no bytes and a group of no fields.
    ///
    /// ```ignore
    /// let copy = field.copy()?;
    /// ```
    #[cycle(copy)]
    pub fn copy(&self) -> Result<UnknownField, AllocError>
        ensures equal { IfOk result (λ f. record_of f ≡ record_of self.now) }
        ensures number { IsNumeric (field_data_of self.now.payload) → IsOk result }
        ensures empty { IsEmpty (field_data_of self.now.payload) → IsOk result }
    {
        let payload = self.payload.copy()?;
        Ok(UnknownField {
            number: self.number,
            payload,
        })
    }
}

impl UnknownFieldData {
    #[cycle(copy)]
    #[tactic(auto, using(crate::proofs::RecordLemmas::empty_records))]
    fn copy(&self) -> Result<UnknownFieldData, AllocError>
        ensures equal { IfOk result (λ d. field_data_of d ≡ field_data_of self.now) }
        ensures number { IsNumeric (field_data_of self.now) → IsOk result }
        ensures empty { IsEmpty (field_data_of self.now) → IsOk result }
    {
        match self {
            UnknownFieldData::Varint(v) => Ok(UnknownFieldData::Varint(*v)),
            UnknownFieldData::Fixed32(v) => Ok(UnknownFieldData::Fixed32(*v)),
            UnknownFieldData::Fixed64(v) => Ok(UnknownFieldData::Fixed64(*v)),
            UnknownFieldData::LengthDelimited(b) => {
                let bytes = copy_bytes(b)?;
                Ok(UnknownFieldData::LengthDelimited(bytes))
            }
            UnknownFieldData::Group(g) => {
                let fields = g.copy()?;
                Ok(UnknownFieldData::Group(fields))
            }
        }
    }
}

// The same bytes; none take no memory.
fn copy_bytes(bytes: &Vec<u8>) -> Result<Vec<u8>, AllocError>
    ensures same { IfOk result (λ v. v.items ≡ bytes.now.items) }
    ensures none { bytes.now.items ≡ [] → IsOk result }
{
    let mut out = Vec::with_capacity(*bytes.allocator(), bytes.len())?;
    out.extend_from_slice(bytes.as_slice())?;
    Ok(out)
}

impl UnknownFields {
    #[cycle(copy)]
    fn copy(&self) -> Result<UnknownFields, AllocError>
        ensures equal { IfOk result (λ f. f.records ≡ self.now.records) }
        ensures empty { self.now.records ≡ [] → IsOk result }
    {
        let mut out = UnknownFields::new(*self.fields.allocator());
        for field in &self.fields {
            let copy = field.copy()?;
            out.push(copy)?;
        }
        Ok(out)
    }
}

impl Clone for UnknownFields {
    /// Equal fields in their order, groups and all, whose memory comes from the same allocator.
    ///
    /// # Errors
    /// Where memory runs out; no fields take none.
    ///
    /// ```ignore
    /// let copy = fields.clone()?;
    /// ```
    fn clone(&self) -> Result<UnknownFields, AllocError>
        ensures equal { IfOk result (λ f. f.records ≡ self.now.records) }
        ensures empty { self.now.records ≡ [] → IsOk result }
    {
        self.copy()
    }
}
