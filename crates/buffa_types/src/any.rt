//! Messages of any type: an [`Any`] with the encoding of one, and the name of its type.

ghost use Rattle.std.specs.Prelude.{◌≡◌, ◌≢◌, ◌^◌, ◌<◌, ◌≤◌, ◌↔◌, [], length, IfErr, IfOk, IfSome, IsSome, IsTrue, OnErr, OnOk, Some, string_bytes, vec_items};
ghost use Rattle.buffa_fields.specs.Terms.{BeginsField, FullOnlyIf, PartlyMerged, defaults};
ghost use Rattle.buffa_bytes.specs.declared.error.EncodeError.TheVariants as error;
ghost use Rattle.buffa_bytes.specs.declared.error.DecodeError.TheVariants.{OutOfMemory};
ghost use Rattle.buffa_wire.specs.BudgetLeft.{Lacks};
ghost use Rattle.buffa_wire.specs.Message.{MergeFault};
ghost use Rattle.buffa_types.specs.TypeUrl.{NamesType, url_of};

use crate::messages::any::Any;
use crate::named_message::NamedMessage;
use buffa_fields::{Decode, DecodeError, EncodeError, Message, RECURSION_LIMIT, UnknownFields};
use std::alloc::Global;

impl Any {
    /// A message, packed: the URL is `type.googleapis.com/` and the full name of its type, and the value is its encoding.
    ///
    /// # Errors
    /// [`EncodeError::MessageTooLarge`] where the encoding is longer than 2^31 - 1 bytes; or [`EncodeError::OutOfMemory`].
    ///
    /// ```ignore
    /// let packed = Any::pack(alloc, &delay)?;
    /// ```
    pub fn pack<M: NamedMessage + Message>(alloc: Global, message: &M) -> Result<Any, EncodeError>
        ensures url { IfOk result (λ any. string_bytes any.type_url ≡ url_of M.name) }
        ensures value { IfOk result (λ any. vec_items any.value ≡ M.encoding (M.meaning message.now)) }
        ensures rest { IfOk result (λ any. any.unknown_fields.records ≡ []) }
        ensures short { OnOk result (length (M.encoding (M.meaning message.now)) < 2 ^ 31) }
        ensures err { IfErr result (λ e. e ≢ error.OutOfMemory → (e ≡ error.MessageTooLarge)
            × (2 ^ 31 ≤ length (M.encoding (M.meaning message.now)))) }
    {
        Any::pack_as(alloc, M::full_name(), message)
    }

    /// The same under a full name that the caller tells: no call sees whether it is that of the message's type.
    ///
    /// # Errors
    /// Those of [`Any::pack`].
    ///
    /// ```ignore
    /// let packed = Any::pack_as(alloc, Duration::FULL_NAME, &delay)?;
    /// ```
    pub fn pack_as<M: Message>(
        alloc: Global,
        full_name: &str,
        message: &M,
    ) -> Result<Any, EncodeError>
        ensures url { IfOk result (λ any. string_bytes any.type_url ≡ url_of full_name.now) }
        ensures value { IfOk result (λ any. vec_items any.value ≡ M.encoding (M.meaning message.now)) }
        ensures rest { IfOk result (λ any. any.unknown_fields.records ≡ []) }
        ensures short { OnOk result (length (M.encoding (M.meaning message.now)) < 2 ^ 31) }
        ensures err { IfErr result (λ e. e ≢ error.OutOfMemory → (e ≡ error.MessageTooLarge)
            × (2 ^ 31 ≤ length (M.encoding (M.meaning message.now)))) }
    {
        let value = message.try_encode_to_vec(alloc)?;
        let type_url = format!(in alloc; "type.googleapis.com/{full_name}")?;
        Ok(Any {
            type_url,
            value,
            unknown_fields: UnknownFields::new(alloc),
        })
    }

    /// Whether its message is of this type, as [`Any::is_named`] says of the type's full name.
    ///
    /// ```ignore
    /// let is_duration = packed.is::<Duration>();
    /// ```
    pub fn is<M: NamedMessage>(&self) -> bool
        ensures { IsTrue result ↔ NamesType (string_bytes self.now.type_url) M.name }
    {
        self.is_named(M::full_name())
    }

    /// Whether its message is of the type with this full name: the name stands behind the last `/` of the URL. What stands
    /// before that `/` isn't looked at. A URL without a `/` names no type, and no type has a name with one.
    ///
    /// ```ignore
    /// let is_duration = packed.is_named("google.protobuf.Duration");
    /// ```
    pub fn is_named(&self, full_name: &str) -> bool
        ensures { IsTrue result ↔ NamesType (string_bytes self.now.type_url) full_name.now }
    {
        let url = self.type_url.as_bytes();
        let name = full_name.as_bytes();
        if url.len() <= name.len() || name.contains(&b'/') {
            return false;
        }
        let at = url.len() - name.len() - 1;
        if url[at] != b'/' {
            return false;
        }
        let (_, behind) = url.split_at(at + 1);
        behind == name
    }

    /// The message, where it is of this type, as [`Any::is`] says; else none, whatever the value is.
    ///
    /// It is read at most [`RECURSION_LIMIT`] deep, under a default budget of its own. [`Decode::decode_within`], of the value,
    /// takes other limits.
    ///
    /// # Errors
    /// Those of [`Decode::decode_from_slice`], of the value.
    ///
    /// ```ignore
    /// let unpacked = packed.unpack::<Duration>(alloc)?;
    /// ```
    pub fn unpack<M: NamedMessage + Message + Drop>(
        &self,
        alloc: Global,
    ) -> Result<Option<M>, DecodeError>
        // It is there where the type has the name, and only then it is read.
        ensures there { IfOk result (λ m. IsSome m ↔ NamesType (string_bytes self.now.type_url) M.name) }
        ensures read { OnErr result (NamesType (string_bytes self.now.type_url) M.name) }
        ensures merged { IfOk result (λ found. IfSome found (λ m. M.merged RECURSION_LIMIT M.blank_is
            (vec_items self.now.value) ≡ Some (M.meaning m))) }
        ensures left { IfOk result (λ found. IsSome found → Lacks defaults (M.cost RECURSION_LIMIT
            (vec_items self.now.value)) → ⊥) }
        ensures fault { IfErr result (λ e. e ≢ OutOfMemory → MergeFault (M.merged RECURSION_LIMIT M.blank_is
            (vec_items self.now.value)) (M.cost RECURSION_LIMIT (vec_items self.now.value)) defaults e) }
        ensures which { IfErr result (λ e. (m : M.Meaning) × PartlyMerged M.merged M.cost M.Refused RECURSION_LIMIT
            M.blank_is (vec_items self.now.value) defaults e m) }
        ensures full { FullOnlyIf result (BeginsField (vec_items self.now.value)) }
    {
        self.unpack_as(alloc, M::full_name())
    }

    /// The same of the type with a full name that the caller tells: the message, where [`Any::is_named`] says so; else none.
    ///
    /// # Errors
    /// Those of [`Any::unpack`].
    ///
    /// ```ignore
    /// let unpacked = packed.unpack_as::<Duration>(alloc, Duration::FULL_NAME)?;
    /// ```
    pub fn unpack_as<M: Message + Drop>(
        &self,
        alloc: Global,
        full_name: &str,
    ) -> Result<Option<M>, DecodeError>
        // It is there where the type has the name, and only then it is read.
        ensures there { IfOk result (λ m. IsSome m ↔ NamesType (string_bytes self.now.type_url) full_name.now) }
        ensures read { OnErr result (NamesType (string_bytes self.now.type_url) full_name.now) }
        ensures merged { IfOk result (λ found. IfSome found (λ m. M.merged RECURSION_LIMIT M.blank_is
            (vec_items self.now.value) ≡ Some (M.meaning m))) }
        ensures left { IfOk result (λ found. IsSome found → Lacks defaults (M.cost RECURSION_LIMIT
            (vec_items self.now.value)) → ⊥) }
        ensures fault { IfErr result (λ e. e ≢ OutOfMemory → MergeFault (M.merged RECURSION_LIMIT M.blank_is
            (vec_items self.now.value)) (M.cost RECURSION_LIMIT (vec_items self.now.value)) defaults e) }
        ensures which { IfErr result (λ e. (m : M.Meaning) × PartlyMerged M.merged M.cost M.Refused RECURSION_LIMIT
            M.blank_is (vec_items self.now.value) defaults e m) }
        ensures full { FullOnlyIf result (BeginsField (vec_items self.now.value)) }
    {
        if !self.is_named(full_name) {
            return Ok(None);
        }
        Ok(Some(M::decode_from_slice(alloc, &self.value)?))
    }
}
