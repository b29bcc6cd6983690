//! The oneof buffa.sample.Payment.method, made of payment.proto by protoc-gen-buffa.

ghost use Rattle.buffa_fields.specs.Terms.{case, enum_of, no_case};
ghost use Rattle.buffa_fields.specs.declared.meaning.Or.TheVariants.{Other, This};
ghost use Rattle.sample_payment.specs.declared.method.Method.TheVariants.{Card, Cash, Transfer as TransferCase};

use crate::transfer::Transfer;
use buffa_fields::map_codec::{Int32, Str};
use buffa_fields::{
    Blank, Case, DecodeContext, DecodeError, ExplicitField, MessageField, OneOf, Or, Set, Tag,
    Visitor, case_reads_back,
};
use std::alloc::Global;
use std::string::String;

/// oneof method {
///     string card = 2;
///     int32 cash = 3;
///     Transfer transfer = 4;
/// }
#[derive(Clone, Debug, Drop, PartialEq, Eq)]
pub enum Method {
    Card(String),
    Cash(i32),
    Transfer(Transfer),
}

impl OneOf for Method {
    type Meaning = Or<[u8; 0], Or<i32, Or<<Transfer as Blank>::Meaning, ()>>>;

    ghost cases = { enum_of (case 2 ⟦<ExplicitField<Str> as Case>⟧.words (
        case 3 ⟦<ExplicitField<Int32> as Case>⟧.words (
        case 4 ⟦<MessageField<Transfer> as Case>⟧.words (
        no_case)))) (λ m. elim m [
          | Card x ↦ This x
          | Cash x ↦ Other (This x)
          | TransferCase x ↦ Other (Other (This x))
        ]) };

    fn visit<V: Visitor>(&self, visitor: &mut V) {
        match self {
            Method::Card(it) => visitor.visit::<Set<ExplicitField<Str>>>(2, it),
            Method::Cash(it) => visitor.visit::<Set<ExplicitField<Int32>>>(3, it),
            Method::Transfer(it) => visitor.visit::<Set<MessageField<Transfer>>>(4, it),
        }
    }

    fn take(
        slot: &mut Option<Method>,
        alloc: Global,
        tag: Tag,
        buf: &mut &[u8],
        ctx: DecodeContext<'_>,
    ) -> Result<(), DecodeError> {
        match tag.field_number() {
            2 => {
                let it = ExplicitField::<Str>::read_value(alloc, tag, buf, ctx)?;
                drop(slot.replace(Method::Card(it)));
                Ok(())
            }
            3 => {
                let it = ExplicitField::<Int32>::read_value(alloc, tag, buf, ctx)?;
                drop(slot.replace(Method::Cash(it)));
                Ok(())
            }
            4 => match slot {
                Some(Method::Transfer(it)) => {
                    MessageField::<Transfer>::merge_value(it, alloc, tag, buf, ctx)
                }
                _ => {
                    let it = MessageField::<Transfer>::read_value(alloc, tag, buf, ctx)?;
                    drop(slot.replace(Method::Transfer(it)));
                    Ok(())
                }
            },
            _ => Ok(()),
        }
    }

    fn reads_back() {
        case_reads_back::<ExplicitField<Str>>();
        case_reads_back::<ExplicitField<Int32>>();
        case_reads_back::<MessageField<Transfer>>();
    }
}

impl buffa_discard::DiscardUnknown for Method {
    ghost use Rattle.std.specs.Prelude.{◌≡◌};

    ghost Discarded = { λ old new. elim old [
      | TransferCase x ↦ (y : _) × (new ≡ TransferCase y) × ⟦<Transfer as buffa_discard::DiscardUnknown>⟧.Discarded x y
      | other ↦ new ≡ other
    ] };

    fn discard_unknown_fields(&mut self, alloc: Global) {
        match self {
            Method::Transfer(it) => it.discard_unknown_fields(alloc),
            _ => {}
        }
    }
}
