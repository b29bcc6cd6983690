//! The oneof buffa.sample.Outline.source, made of outline.proto by protoc-gen-buffa.

ghost use Rattle.buffa_fields.specs.Terms.{case, enum_of, no_case};
ghost use Rattle.buffa_fields.specs.declared.meaning.Or.TheVariants.{Other, This};
ghost use Rattle.sample_outline.specs.declared.outline_source.OutlineSource.TheVariants.{Book, Page, Spot as SpotCase};

use crate::spot::Spot;
use buffa_fields::map_codec::{Int32, Str};
use buffa_fields::{
    Blank, Case, DecodeContext, DecodeError, ExplicitField, MessageField, OneOf, Or, Set, Tag,
    Visitor, case_reads_back,
};
use std::alloc::Global;
use std::string::String;

/// Where it is from.
///
/// oneof source {
///     string book = 7;
///     int32 page = 8;
///     Spot spot = 9;
/// }
#[derive(Debug, Drop)]
pub enum OutlineSource {
    Book(String),
    Page(i32),
    Spot(Spot),
}

impl OneOf for OutlineSource {
    type Meaning = Or<[u8; 0], Or<i32, Or<<Spot as Blank>::Meaning, ()>>>;

    ghost cases = { enum_of (case 7 ⟦<ExplicitField<Str> as Case>⟧.words (
        case 8 ⟦<ExplicitField<Int32> as Case>⟧.words (
        case 9 ⟦<MessageField<Spot> as Case>⟧.words (
        no_case)))) (λ m. elim m [
          | Book x ↦ This x
          | Page x ↦ Other (This x)
          | SpotCase x ↦ Other (Other (This x))
        ]) };

    fn visit<V: Visitor>(&self, visitor: &mut V) {
        match self {
            OutlineSource::Book(it) => visitor.visit::<Set<ExplicitField<Str>>>(7, it),
            OutlineSource::Page(it) => visitor.visit::<Set<ExplicitField<Int32>>>(8, it),
            OutlineSource::Spot(it) => visitor.visit::<Set<MessageField<Spot>>>(9, it),
        }
    }

    fn take(
        slot: &mut Option<OutlineSource>,
        alloc: Global,
        tag: Tag,
        buf: &mut &[u8],
        ctx: DecodeContext<'_>,
    ) -> Result<(), DecodeError> {
        match tag.field_number() {
            7 => {
                let it = ExplicitField::<Str>::read_value(alloc, tag, buf, ctx)?;
                drop(slot.replace(OutlineSource::Book(it)));
                Ok(())
            }
            8 => {
                let it = ExplicitField::<Int32>::read_value(alloc, tag, buf, ctx)?;
                drop(slot.replace(OutlineSource::Page(it)));
                Ok(())
            }
            9 => match slot {
                Some(OutlineSource::Spot(it)) => {
                    MessageField::<Spot>::merge_value(it, alloc, tag, buf, ctx)
                }
                _ => {
                    let it = MessageField::<Spot>::read_value(alloc, tag, buf, ctx)?;
                    drop(slot.replace(OutlineSource::Spot(it)));
                    Ok(())
                }
            },
            _ => Ok(()),
        }
    }

    fn reads_back() {
        case_reads_back::<ExplicitField<Str>>();
        case_reads_back::<ExplicitField<Int32>>();
        case_reads_back::<MessageField<Spot>>();
    }
}
