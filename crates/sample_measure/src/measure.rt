//! buffa.sample.Measure, made of measure.proto by protoc-gen-buffa.

ghost use Rattle.std.proofs.Common.{lit<, refl};
ghost use Rattle.std.specs.Prelude.{is_some, ◌&&◌};
ghost use Rattle.buffa_fields.specs.Terms.{field, field_with_unknowns, keep_unknown};

use crate::spot::Spot;
use crate::unit::Unit;
use buffa_fields::map_codec::{ClosedEnum, Double, Float, Int32, Map, Str};
use buffa_fields::{
    And, And10, Blank, DecodeContext, DecodeError, DoubleBits, ExplicitField, FieldByField,
    FieldsMeaning, FloatBits, KeepsUnknowns, MapField, Member, MessageField, MessageFields,
    MessageImpl, PackedField, RepeatedField, RepeatedMessageField, Required, Tag, UnknownFields,
    Unknowns, Visitor, unknown,
};
use std::alloc::Global;
use std::string::String;

/// What was measured there.
///
/// message Measure {
///     required string station = 1;
///     optional double value = 2 [default = 0.25];
///     optional Unit unit = 3 [default = METRE];
///     repeated float gusts = 4 [packed = true];
///     repeated double levels = 5;
///     map<int32, double> tides = 6;
///     optional Spot spot = 7;
///     repeated Spot nearby = 8;
///     optional string note = 9 [default = "calm"];
/// }
///
/// Read where it isn't there, too, and `is_initialized` says whether it is: station = 1.
///
/// `is_initialized` looks into the messages of these: spot = 7, nearby = 8.
#[derive(Debug, Drop)]
pub struct Measure {
    pub station: Option<String>,
    pub value: Option<DoubleBits>,
    pub unit: Option<Unit>,
    pub gusts: Vec<FloatBits>,
    pub levels: Vec<DoubleBits>,
    pub tides: Map<i32, DoubleBits>,
    pub spot: Option<Spot>,
    pub nearby: Vec<Spot>,
    pub note: Option<String>,
    /// The fields that aren't declared, in order.
    pub unknown_fields: UnknownFields,
}

impl MessageFields for Measure {
    type Meaning = And10<
        Option<[u8; 0]>,
        Option<u64>,
        Option<i32>,
        [u32; 0],
        [u64; 0],
        [And<i32, u64>; 0],
        Option<<Spot as Blank>::Meaning>,
        [<Spot as Blank>::Meaning; 0],
        Option<[u8; 0]>,
        Unknowns,
    >;

    const COST: usize = 384;

    ghost COST = { 384 };

    ghost positive = { lit< tt };

    ghost schema = { field 1 (λ m. m.station) ⟦<ExplicitField<Str> as Member>⟧.shape (
        field 2 (λ m. m.value) ⟦<ExplicitField<Double> as Member>⟧.shape (
        field_with_unknowns 3 (λ m. m.unit) ⟦<ExplicitField<ClosedEnum<Unit>> as Member>⟧.shape
        ⟦<ExplicitField<ClosedEnum<Unit>> as KeepsUnknowns>⟧.unknowns (
        field 4 (λ m. m.gusts) ⟦<PackedField<Float> as Member>⟧.shape (
        field 5 (λ m. m.levels) ⟦<RepeatedField<Double> as Member>⟧.shape (
        field 6 (λ m. m.tides) ⟦<MapField<Int32, Double> as Member>⟧.shape (
        field 7 (λ m. m.spot) ⟦<MessageField<Spot> as Member>⟧.shape (
        field 8 (λ m. m.nearby) ⟦<RepeatedMessageField<Spot> as Member>⟧.shape (
        field 9 (λ m. m.note) ⟦<ExplicitField<Str> as Member>⟧.shape (
        keep_unknown (λ m. m.unknown_fields.records)))))))))) };

    ghost sound = { refl };

    fn visit<V: Visitor>(&self, visitor: &mut V) {
        visitor.visit::<ExplicitField<Str>>(1, &self.station);
        visitor.visit::<ExplicitField<Double>>(2, &self.value);
        visitor.visit_with_unknowns::<ExplicitField<ClosedEnum<Unit>>>(3, &self.unit);
        visitor.visit::<PackedField<Float>>(4, &self.gusts);
        visitor.visit::<RepeatedField<Double>>(5, &self.levels);
        visitor.visit::<MapField<Int32, Double>>(6, &self.tides);
        visitor.visit::<MessageField<Spot>>(7, &self.spot);
        visitor.visit::<RepeatedMessageField<Spot>>(8, &self.nearby);
        visitor.visit::<ExplicitField<Str>>(9, &self.note);
        visitor.visit_unknown_fields(&self.unknown_fields);
    }

    fn take(
        &mut self,
        alloc: Global,
        tag: Tag,
        buf: &mut &[u8],
        ctx: DecodeContext<'_>,
    ) -> Result<(), DecodeError> {
        match tag.field_number() {
            1 => ExplicitField::<Str>::merge(&mut self.station, alloc, tag, buf, ctx),
            2 => ExplicitField::<Double>::merge(&mut self.value, alloc, tag, buf, ctx),
            3 => ExplicitField::<ClosedEnum<Unit>>::merge_with_unknowns(
                &mut self.unit,
                &mut self.unknown_fields,
                alloc,
                tag,
                buf,
                ctx,
            ),
            4 => PackedField::<Float>::merge(&mut self.gusts, alloc, tag, buf, ctx),
            5 => RepeatedField::<Double>::merge(&mut self.levels, alloc, tag, buf, ctx),
            6 => MapField::<Int32, Double>::merge(&mut self.tides, alloc, tag, buf, ctx),
            7 => MessageField::<Spot>::merge(&mut self.spot, alloc, tag, buf, ctx),
            8 => RepeatedMessageField::<Spot>::merge(&mut self.nearby, alloc, tag, buf, ctx),
            9 => ExplicitField::<Str>::merge(&mut self.note, alloc, tag, buf, ctx),
            _ => unknown::keep(alloc, &mut self.unknown_fields, tag, buf, ctx),
        }
    }
}

impl Blank for Measure {
    type Meaning = <Measure as MessageFields>::Meaning;

    ghost meaning = { ⟦<Measure as MessageFields>⟧.schema.meaning };

    ghost blank_is = { ⟦<Measure as MessageFields>⟧.schema.blank };

    fn blank(alloc: Global) -> Measure {
        Measure {
            station: None,
            value: None,
            unit: None,
            gusts: Vec::new(alloc),
            levels: Vec::new(alloc),
            tides: Map::new(alloc),
            spot: None,
            nearby: Vec::new(alloc),
            note: None,
            unknown_fields: UnknownFields::new(alloc),
        }
    }
}

impl FieldsMeaning for Measure {
    ghost means = { λ m. refl };

    ghost starts = { refl };
}

impl MessageImpl for Measure {
    type Impl = FieldByField;
}

const _: () = prove!(size_of::<Measure>() <= Measure::COST);

impl Required for Measure {
    ghost initialized = { λ m. is_some m.station && ⟦<Option<Spot> as Required>⟧.initialized m.spot &&
        ⟦<Vec<Spot> as Required>⟧.initialized m.nearby };

    fn is_initialized(&self) -> bool {
        self.station.is_some() & self.spot.is_initialized() & self.nearby.is_initialized()
    }
}

impl Measure {
    ghost use Rattle.std.specs.Prelude.{None, Some, [], codes, if◌then◌else◌, option_map, string_bytes, unwrap_or, ◌==◌, ◌≡◌};
    ghost use Rattle.sample_measure.specs.declared.unit.Unit.TheVariants.{Metre};

    /// The full name of the message.
    pub const FULL_NAME: &'static str = "buffa.sample.Measure";

    /// The name in the `.proto` of the field that has this number; none where the message has no member for it.
    pub fn field_name(number: u32) -> Option<&'static str>
        ensures { option_map (λ name. name.now) result ≡ (
            if number == 1 then Some (codes "station") else
            if number == 2 then Some (codes "value") else
            if number == 3 then Some (codes "unit") else
            if number == 4 then Some (codes "gusts") else
            if number == 5 then Some (codes "levels") else
            if number == 6 then Some (codes "tides") else
            if number == 7 then Some (codes "spot") else
            if number == 8 then Some (codes "nearby") else
            if number == 9 then Some (codes "note") else
            None) }
    {
        match number {
            1 => Some("station"),
            2 => Some("value"),
            3 => Some("unit"),
            4 => Some("gusts"),
            5 => Some("levels"),
            6 => Some("tides"),
            7 => Some("spot"),
            8 => Some("nearby"),
            9 => Some("note"),
            _ => None,
        }
    }

    /// `station`, or the default of its type where it isn't there: empty.
    pub fn station(&self) -> &str
        ensures is { result.now ≡ unwrap_or (option_map string_bytes self.now.station) [] }
    {
        match &self.station {
            Some(it) => it.as_str(),
            None => "",
        }
    }

    /// `value`, or its default where it isn't there: 0.25.
    pub fn value(&self) -> DoubleBits
        ensures is { result.bits ≡ unwrap_or (option_map (λ it. it.bits) self.now.value) 4598175219545276416 }
    {
        match &self.value {
            Some(it) => *it,
            None => DoubleBits {
                bits: 4598175219545276416,
            },
        }
    }

    /// `unit`, or its default where it isn't there: METRE.
    pub fn unit(&self) -> Unit
        ensures is { result ≡ unwrap_or self.now.unit Metre }
    {
        self.unit.unwrap_or(Unit::Metre)
    }

    /// `note`, or its default where it isn't there: "calm".
    pub fn note(&self) -> &str
        ensures is { result.now ≡ unwrap_or (option_map string_bytes self.now.note) (codes "calm") }
    {
        match &self.note {
            Some(it) => it.as_str(),
            None => "calm",
        }
    }
}
