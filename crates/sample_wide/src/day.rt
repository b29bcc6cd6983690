//! weather.Day, made of day.proto by protoc-gen-buffa.

ghost use Rattle.std.proofs.Common.{lit<, refl};
ghost use Rattle.buffa_fields.specs.Terms.{TakesBlock, block, block_of, both_blocks, eight, one, seven, keep_unknown};

use crate::place::Place;
use buffa_fields::map_codec::{Map, Sint32, Str, Uint32};
use buffa_fields::{
    And, And7, And8, And11, Blank, DecodeContext, DecodeError, FieldByField, FieldsMeaning,
    ImplicitField, MapField, Member, MemberBlock, MessageField, MessageFields, MessageImpl, Tag,
    UnknownFields, Unknowns, Visitor, unknown,
};
use std::alloc::Global;
use std::string::String;

/// The measurements of a day.
///
/// message Day {
///     string station = 1;
///     uint32 number = 2;
///     sint32 temperature_0 = 3;
///     sint32 temperature_1 = 4;
///     sint32 temperature_2 = 5;
///     sint32 temperature_3 = 6;
///     sint32 temperature_4 = 7;
///     sint32 temperature_5 = 8;
///     sint32 temperature_6 = 9;
///     sint32 temperature_7 = 10;
///     sint32 temperature_8 = 11;
///     sint32 temperature_9 = 12;
///     sint32 temperature_10 = 13;
///     sint32 temperature_11 = 14;
///     sint32 temperature_12 = 15;
///     sint32 temperature_13 = 16;
///     sint32 temperature_14 = 17;
///     sint32 temperature_15 = 18;
///     sint32 temperature_16 = 19;
///     sint32 temperature_17 = 20;
///     sint32 temperature_18 = 21;
///     sint32 temperature_19 = 22;
///     sint32 temperature_20 = 23;
///     sint32 temperature_21 = 24;
///     sint32 temperature_22 = 25;
///     sint32 temperature_23 = 26;
///     uint32 rain_0 = 27;
///     uint32 rain_1 = 28;
///     uint32 rain_2 = 29;
///     uint32 rain_3 = 30;
///     uint32 rain_4 = 31;
///     uint32 rain_5 = 32;
///     uint32 rain_6 = 33;
///     uint32 rain_7 = 34;
///     uint32 rain_8 = 35;
///     uint32 rain_9 = 36;
///     uint32 rain_10 = 37;
///     uint32 rain_11 = 38;
///     uint32 rain_12 = 39;
///     uint32 rain_13 = 40;
///     uint32 rain_14 = 41;
///     uint32 rain_15 = 42;
///     uint32 rain_16 = 43;
///     uint32 rain_17 = 44;
///     uint32 rain_18 = 45;
///     uint32 rain_19 = 46;
///     uint32 rain_20 = 47;
///     uint32 rain_21 = 48;
///     uint32 rain_22 = 49;
///     uint32 rain_23 = 50;
///     uint32 wind_0 = 51;
///     uint32 wind_1 = 52;
///     uint32 wind_2 = 53;
///     uint32 wind_3 = 54;
///     uint32 wind_4 = 55;
///     uint32 wind_5 = 56;
///     uint32 wind_6 = 57;
///     uint32 wind_7 = 58;
///     uint32 wind_8 = 59;
///     uint32 wind_9 = 60;
///     uint32 wind_10 = 61;
///     uint32 wind_11 = 62;
///     uint32 wind_12 = 63;
///     uint32 wind_13 = 64;
///     uint32 wind_14 = 65;
///     uint32 wind_15 = 66;
///     uint32 wind_16 = 67;
///     uint32 wind_17 = 68;
///     uint32 wind_18 = 69;
///     uint32 wind_19 = 70;
///     uint32 wind_20 = 71;
///     uint32 wind_21 = 72;
///     uint32 wind_22 = 73;
///     uint32 wind_23 = 74;
///     Place place = 75;
///     map<uint32, string> remarks = 76;
/// }
#[derive(Debug, Drop)]
pub struct Day {
    /// The name of the station.
    pub station: String,
    /// How many days before it there were since 1970.
    pub number: u32,
    /// The temperature in tenths of a degree Celsius, hour by hour.
    pub temperature_0: i32,
    pub temperature_1: i32,
    pub temperature_2: i32,
    pub temperature_3: i32,
    pub temperature_4: i32,
    pub temperature_5: i32,
    pub temperature_6: i32,
    pub temperature_7: i32,
    pub temperature_8: i32,
    pub temperature_9: i32,
    pub temperature_10: i32,
    pub temperature_11: i32,
    pub temperature_12: i32,
    pub temperature_13: i32,
    pub temperature_14: i32,
    pub temperature_15: i32,
    pub temperature_16: i32,
    pub temperature_17: i32,
    pub temperature_18: i32,
    pub temperature_19: i32,
    pub temperature_20: i32,
    pub temperature_21: i32,
    pub temperature_22: i32,
    pub temperature_23: i32,
    /// The rain in tenths of a millimetre, hour by hour.
    pub rain_0: u32,
    pub rain_1: u32,
    pub rain_2: u32,
    pub rain_3: u32,
    pub rain_4: u32,
    pub rain_5: u32,
    pub rain_6: u32,
    pub rain_7: u32,
    pub rain_8: u32,
    pub rain_9: u32,
    pub rain_10: u32,
    pub rain_11: u32,
    pub rain_12: u32,
    pub rain_13: u32,
    pub rain_14: u32,
    pub rain_15: u32,
    pub rain_16: u32,
    pub rain_17: u32,
    pub rain_18: u32,
    pub rain_19: u32,
    pub rain_20: u32,
    pub rain_21: u32,
    pub rain_22: u32,
    pub rain_23: u32,
    /// The wind in tenths of a metre a second, hour by hour.
    pub wind_0: u32,
    pub wind_1: u32,
    pub wind_2: u32,
    pub wind_3: u32,
    pub wind_4: u32,
    pub wind_5: u32,
    pub wind_6: u32,
    pub wind_7: u32,
    pub wind_8: u32,
    pub wind_9: u32,
    pub wind_10: u32,
    pub wind_11: u32,
    pub wind_12: u32,
    pub wind_13: u32,
    pub wind_14: u32,
    pub wind_15: u32,
    pub wind_16: u32,
    pub wind_17: u32,
    pub wind_18: u32,
    pub wind_19: u32,
    pub wind_20: u32,
    pub wind_21: u32,
    pub wind_22: u32,
    pub wind_23: u32,
    /// Where the station stands.
    pub place: Option<Place>,
    /// What the observer says, by the hour.
    pub remarks: Map<u32, String>,
    /// The fields that aren't declared, in order.
    pub unknown_fields: UnknownFields,
}

/// The members from `station` to `temperature_4` of a [`Day`], which are read and written together.
pub struct DayBlock1;

impl MemberBlock for DayBlock1 {
    type Message = Day;

    type Meaning = And7<[u8; 0], u32, i32, i32, i32, i32, i32>;

    ghost members = { block_of (λ m. seven m.station m.number m.temperature_0 m.temperature_1 m.temperature_2 m.temperature_3 m.temperature_4) (
        both_blocks (one 1 ⟦<ImplicitField<Str> as Member>⟧.shape) (
        both_blocks (one 2 ⟦<ImplicitField<Uint32> as Member>⟧.shape) (
        both_blocks (one 3 ⟦<ImplicitField<Sint32> as Member>⟧.shape) (
        both_blocks (one 4 ⟦<ImplicitField<Sint32> as Member>⟧.shape) (
        both_blocks (one 5 ⟦<ImplicitField<Sint32> as Member>⟧.shape) (
        both_blocks (one 6 ⟦<ImplicitField<Sint32> as Member>⟧.shape) (
        one 7 ⟦<ImplicitField<Sint32> as Member>⟧.shape))))))) };

    fn visit<V: Visitor>(message: &Day, visitor: &mut V) {
        visitor.visit::<ImplicitField<Str>>(1, &message.station);
        visitor.visit::<ImplicitField<Uint32>>(2, &message.number);
        visitor.visit::<ImplicitField<Sint32>>(3, &message.temperature_0);
        visitor.visit::<ImplicitField<Sint32>>(4, &message.temperature_1);
        visitor.visit::<ImplicitField<Sint32>>(5, &message.temperature_2);
        visitor.visit::<ImplicitField<Sint32>>(6, &message.temperature_3);
        visitor.visit::<ImplicitField<Sint32>>(7, &message.temperature_4);
    }

    fn has(number: u32) -> bool {
        matches!(number, 1 | 2 | 3 | 4 | 5 | 6 | 7)
    }
}

impl DayBlock1 {
    // Merges the field whose tag was read into the member of its number.
    fn take(
        station: &mut String,
        number: &mut u32,
        temperature_0: &mut i32,
        temperature_1: &mut i32,
        temperature_2: &mut i32,
        temperature_3: &mut i32,
        temperature_4: &mut i32,
        alloc: Global,
        tag: Tag,
        buf: &mut &[u8],
        ctx: DecodeContext<'_>,
    ) -> Result<(), DecodeError>
        ensures { TakesBlock tag ctx.entry ctx.exit ⟦<DayBlock1 as MemberBlock>⟧.members (seven station.old number.old
            temperature_0.old temperature_1.old temperature_2.old temperature_3.old temperature_4.old) (seven
            station.new number.new temperature_0.new temperature_1.new temperature_2.new temperature_3.new
            temperature_4.new) buf.old buf.new result }
    {
        match tag.field_number() {
            1 => ImplicitField::<Str>::merge(station, alloc, tag, buf, ctx),
            2 => ImplicitField::<Uint32>::merge(number, alloc, tag, buf, ctx),
            3 => ImplicitField::<Sint32>::merge(temperature_0, alloc, tag, buf, ctx),
            4 => ImplicitField::<Sint32>::merge(temperature_1, alloc, tag, buf, ctx),
            5 => ImplicitField::<Sint32>::merge(temperature_2, alloc, tag, buf, ctx),
            6 => ImplicitField::<Sint32>::merge(temperature_3, alloc, tag, buf, ctx),
            _ => ImplicitField::<Sint32>::merge(temperature_4, alloc, tag, buf, ctx),
        }
    }
}

/// The members from `temperature_5` to `temperature_12` of a [`Day`], which are read and written together.
pub struct DayBlock2;

impl MemberBlock for DayBlock2 {
    type Message = Day;

    type Meaning = And8<i32, i32, i32, i32, i32, i32, i32, i32>;

    ghost members = { block_of (λ m. eight m.temperature_5 m.temperature_6 m.temperature_7 m.temperature_8 m.temperature_9 m.temperature_10 m.temperature_11 m.temperature_12) (
        both_blocks (one 8 ⟦<ImplicitField<Sint32> as Member>⟧.shape) (
        both_blocks (one 9 ⟦<ImplicitField<Sint32> as Member>⟧.shape) (
        both_blocks (one 10 ⟦<ImplicitField<Sint32> as Member>⟧.shape) (
        both_blocks (one 11 ⟦<ImplicitField<Sint32> as Member>⟧.shape) (
        both_blocks (one 12 ⟦<ImplicitField<Sint32> as Member>⟧.shape) (
        both_blocks (one 13 ⟦<ImplicitField<Sint32> as Member>⟧.shape) (
        both_blocks (one 14 ⟦<ImplicitField<Sint32> as Member>⟧.shape) (
        one 15 ⟦<ImplicitField<Sint32> as Member>⟧.shape)))))))) };

    fn visit<V: Visitor>(message: &Day, visitor: &mut V) {
        visitor.visit::<ImplicitField<Sint32>>(8, &message.temperature_5);
        visitor.visit::<ImplicitField<Sint32>>(9, &message.temperature_6);
        visitor.visit::<ImplicitField<Sint32>>(10, &message.temperature_7);
        visitor.visit::<ImplicitField<Sint32>>(11, &message.temperature_8);
        visitor.visit::<ImplicitField<Sint32>>(12, &message.temperature_9);
        visitor.visit::<ImplicitField<Sint32>>(13, &message.temperature_10);
        visitor.visit::<ImplicitField<Sint32>>(14, &message.temperature_11);
        visitor.visit::<ImplicitField<Sint32>>(15, &message.temperature_12);
    }

    fn has(number: u32) -> bool {
        matches!(number, 8 | 9 | 10 | 11 | 12 | 13 | 14 | 15)
    }
}

impl DayBlock2 {
    // Merges the field whose tag was read into the member of its number.
    fn take(
        temperature_5: &mut i32,
        temperature_6: &mut i32,
        temperature_7: &mut i32,
        temperature_8: &mut i32,
        temperature_9: &mut i32,
        temperature_10: &mut i32,
        temperature_11: &mut i32,
        temperature_12: &mut i32,
        alloc: Global,
        tag: Tag,
        buf: &mut &[u8],
        ctx: DecodeContext<'_>,
    ) -> Result<(), DecodeError>
        ensures { TakesBlock tag ctx.entry ctx.exit ⟦<DayBlock2 as MemberBlock>⟧.members (eight temperature_5.old
            temperature_6.old temperature_7.old temperature_8.old temperature_9.old temperature_10.old
            temperature_11.old temperature_12.old) (eight temperature_5.new temperature_6.new temperature_7.new
            temperature_8.new temperature_9.new temperature_10.new temperature_11.new temperature_12.new) buf.old
            buf.new result }
    {
        match tag.field_number() {
            8 => ImplicitField::<Sint32>::merge(temperature_5, alloc, tag, buf, ctx),
            9 => ImplicitField::<Sint32>::merge(temperature_6, alloc, tag, buf, ctx),
            10 => ImplicitField::<Sint32>::merge(temperature_7, alloc, tag, buf, ctx),
            11 => ImplicitField::<Sint32>::merge(temperature_8, alloc, tag, buf, ctx),
            12 => ImplicitField::<Sint32>::merge(temperature_9, alloc, tag, buf, ctx),
            13 => ImplicitField::<Sint32>::merge(temperature_10, alloc, tag, buf, ctx),
            14 => ImplicitField::<Sint32>::merge(temperature_11, alloc, tag, buf, ctx),
            _ => ImplicitField::<Sint32>::merge(temperature_12, alloc, tag, buf, ctx),
        }
    }
}

/// The members from `temperature_13` to `temperature_19` of a [`Day`], which are read and written together.
pub struct DayBlock3;

impl MemberBlock for DayBlock3 {
    type Message = Day;

    type Meaning = And7<i32, i32, i32, i32, i32, i32, i32>;

    ghost members = { block_of (λ m. seven m.temperature_13 m.temperature_14 m.temperature_15 m.temperature_16 m.temperature_17 m.temperature_18 m.temperature_19) (
        both_blocks (one 16 ⟦<ImplicitField<Sint32> as Member>⟧.shape) (
        both_blocks (one 17 ⟦<ImplicitField<Sint32> as Member>⟧.shape) (
        both_blocks (one 18 ⟦<ImplicitField<Sint32> as Member>⟧.shape) (
        both_blocks (one 19 ⟦<ImplicitField<Sint32> as Member>⟧.shape) (
        both_blocks (one 20 ⟦<ImplicitField<Sint32> as Member>⟧.shape) (
        both_blocks (one 21 ⟦<ImplicitField<Sint32> as Member>⟧.shape) (
        one 22 ⟦<ImplicitField<Sint32> as Member>⟧.shape))))))) };

    fn visit<V: Visitor>(message: &Day, visitor: &mut V) {
        visitor.visit::<ImplicitField<Sint32>>(16, &message.temperature_13);
        visitor.visit::<ImplicitField<Sint32>>(17, &message.temperature_14);
        visitor.visit::<ImplicitField<Sint32>>(18, &message.temperature_15);
        visitor.visit::<ImplicitField<Sint32>>(19, &message.temperature_16);
        visitor.visit::<ImplicitField<Sint32>>(20, &message.temperature_17);
        visitor.visit::<ImplicitField<Sint32>>(21, &message.temperature_18);
        visitor.visit::<ImplicitField<Sint32>>(22, &message.temperature_19);
    }

    fn has(number: u32) -> bool {
        matches!(number, 16 | 17 | 18 | 19 | 20 | 21 | 22)
    }
}

impl DayBlock3 {
    // Merges the field whose tag was read into the member of its number.
    fn take(
        temperature_13: &mut i32,
        temperature_14: &mut i32,
        temperature_15: &mut i32,
        temperature_16: &mut i32,
        temperature_17: &mut i32,
        temperature_18: &mut i32,
        temperature_19: &mut i32,
        alloc: Global,
        tag: Tag,
        buf: &mut &[u8],
        ctx: DecodeContext<'_>,
    ) -> Result<(), DecodeError>
        ensures { TakesBlock tag ctx.entry ctx.exit ⟦<DayBlock3 as MemberBlock>⟧.members (seven temperature_13.old
            temperature_14.old temperature_15.old temperature_16.old temperature_17.old temperature_18.old
            temperature_19.old) (seven temperature_13.new temperature_14.new temperature_15.new temperature_16.new
            temperature_17.new temperature_18.new temperature_19.new) buf.old buf.new result }
    {
        match tag.field_number() {
            16 => ImplicitField::<Sint32>::merge(temperature_13, alloc, tag, buf, ctx),
            17 => ImplicitField::<Sint32>::merge(temperature_14, alloc, tag, buf, ctx),
            18 => ImplicitField::<Sint32>::merge(temperature_15, alloc, tag, buf, ctx),
            19 => ImplicitField::<Sint32>::merge(temperature_16, alloc, tag, buf, ctx),
            20 => ImplicitField::<Sint32>::merge(temperature_17, alloc, tag, buf, ctx),
            21 => ImplicitField::<Sint32>::merge(temperature_18, alloc, tag, buf, ctx),
            _ => ImplicitField::<Sint32>::merge(temperature_19, alloc, tag, buf, ctx),
        }
    }
}

/// The members from `temperature_20` to `rain_3` of a [`Day`], which are read and written together.
pub struct DayBlock4;

impl MemberBlock for DayBlock4 {
    type Message = Day;

    type Meaning = And8<i32, i32, i32, i32, u32, u32, u32, u32>;

    ghost members = { block_of (λ m. eight m.temperature_20 m.temperature_21 m.temperature_22 m.temperature_23 m.rain_0 m.rain_1 m.rain_2 m.rain_3) (
        both_blocks (one 23 ⟦<ImplicitField<Sint32> as Member>⟧.shape) (
        both_blocks (one 24 ⟦<ImplicitField<Sint32> as Member>⟧.shape) (
        both_blocks (one 25 ⟦<ImplicitField<Sint32> as Member>⟧.shape) (
        both_blocks (one 26 ⟦<ImplicitField<Sint32> as Member>⟧.shape) (
        both_blocks (one 27 ⟦<ImplicitField<Uint32> as Member>⟧.shape) (
        both_blocks (one 28 ⟦<ImplicitField<Uint32> as Member>⟧.shape) (
        both_blocks (one 29 ⟦<ImplicitField<Uint32> as Member>⟧.shape) (
        one 30 ⟦<ImplicitField<Uint32> as Member>⟧.shape)))))))) };

    fn visit<V: Visitor>(message: &Day, visitor: &mut V) {
        visitor.visit::<ImplicitField<Sint32>>(23, &message.temperature_20);
        visitor.visit::<ImplicitField<Sint32>>(24, &message.temperature_21);
        visitor.visit::<ImplicitField<Sint32>>(25, &message.temperature_22);
        visitor.visit::<ImplicitField<Sint32>>(26, &message.temperature_23);
        visitor.visit::<ImplicitField<Uint32>>(27, &message.rain_0);
        visitor.visit::<ImplicitField<Uint32>>(28, &message.rain_1);
        visitor.visit::<ImplicitField<Uint32>>(29, &message.rain_2);
        visitor.visit::<ImplicitField<Uint32>>(30, &message.rain_3);
    }

    fn has(number: u32) -> bool {
        matches!(number, 23 | 24 | 25 | 26 | 27 | 28 | 29 | 30)
    }
}

impl DayBlock4 {
    // Merges the field whose tag was read into the member of its number.
    fn take(
        temperature_20: &mut i32,
        temperature_21: &mut i32,
        temperature_22: &mut i32,
        temperature_23: &mut i32,
        rain_0: &mut u32,
        rain_1: &mut u32,
        rain_2: &mut u32,
        rain_3: &mut u32,
        alloc: Global,
        tag: Tag,
        buf: &mut &[u8],
        ctx: DecodeContext<'_>,
    ) -> Result<(), DecodeError>
        ensures { TakesBlock tag ctx.entry ctx.exit ⟦<DayBlock4 as MemberBlock>⟧.members (eight temperature_20.old
            temperature_21.old temperature_22.old temperature_23.old rain_0.old rain_1.old rain_2.old rain_3.old) (eight
            temperature_20.new temperature_21.new temperature_22.new temperature_23.new rain_0.new rain_1.new rain_2.new
            rain_3.new) buf.old buf.new result }
    {
        match tag.field_number() {
            23 => ImplicitField::<Sint32>::merge(temperature_20, alloc, tag, buf, ctx),
            24 => ImplicitField::<Sint32>::merge(temperature_21, alloc, tag, buf, ctx),
            25 => ImplicitField::<Sint32>::merge(temperature_22, alloc, tag, buf, ctx),
            26 => ImplicitField::<Sint32>::merge(temperature_23, alloc, tag, buf, ctx),
            27 => ImplicitField::<Uint32>::merge(rain_0, alloc, tag, buf, ctx),
            28 => ImplicitField::<Uint32>::merge(rain_1, alloc, tag, buf, ctx),
            29 => ImplicitField::<Uint32>::merge(rain_2, alloc, tag, buf, ctx),
            _ => ImplicitField::<Uint32>::merge(rain_3, alloc, tag, buf, ctx),
        }
    }
}

/// The members from `rain_4` to `rain_11` of a [`Day`], which are read and written together.
pub struct DayBlock5;

impl MemberBlock for DayBlock5 {
    type Message = Day;

    type Meaning = And8<u32, u32, u32, u32, u32, u32, u32, u32>;

    ghost members = { block_of (λ m. eight m.rain_4 m.rain_5 m.rain_6 m.rain_7 m.rain_8 m.rain_9 m.rain_10 m.rain_11) (
        both_blocks (one 31 ⟦<ImplicitField<Uint32> as Member>⟧.shape) (
        both_blocks (one 32 ⟦<ImplicitField<Uint32> as Member>⟧.shape) (
        both_blocks (one 33 ⟦<ImplicitField<Uint32> as Member>⟧.shape) (
        both_blocks (one 34 ⟦<ImplicitField<Uint32> as Member>⟧.shape) (
        both_blocks (one 35 ⟦<ImplicitField<Uint32> as Member>⟧.shape) (
        both_blocks (one 36 ⟦<ImplicitField<Uint32> as Member>⟧.shape) (
        both_blocks (one 37 ⟦<ImplicitField<Uint32> as Member>⟧.shape) (
        one 38 ⟦<ImplicitField<Uint32> as Member>⟧.shape)))))))) };

    fn visit<V: Visitor>(message: &Day, visitor: &mut V) {
        visitor.visit::<ImplicitField<Uint32>>(31, &message.rain_4);
        visitor.visit::<ImplicitField<Uint32>>(32, &message.rain_5);
        visitor.visit::<ImplicitField<Uint32>>(33, &message.rain_6);
        visitor.visit::<ImplicitField<Uint32>>(34, &message.rain_7);
        visitor.visit::<ImplicitField<Uint32>>(35, &message.rain_8);
        visitor.visit::<ImplicitField<Uint32>>(36, &message.rain_9);
        visitor.visit::<ImplicitField<Uint32>>(37, &message.rain_10);
        visitor.visit::<ImplicitField<Uint32>>(38, &message.rain_11);
    }

    fn has(number: u32) -> bool {
        matches!(number, 31 | 32 | 33 | 34 | 35 | 36 | 37 | 38)
    }
}

impl DayBlock5 {
    // Merges the field whose tag was read into the member of its number.
    fn take(
        rain_4: &mut u32,
        rain_5: &mut u32,
        rain_6: &mut u32,
        rain_7: &mut u32,
        rain_8: &mut u32,
        rain_9: &mut u32,
        rain_10: &mut u32,
        rain_11: &mut u32,
        alloc: Global,
        tag: Tag,
        buf: &mut &[u8],
        ctx: DecodeContext<'_>,
    ) -> Result<(), DecodeError>
        ensures { TakesBlock tag ctx.entry ctx.exit ⟦<DayBlock5 as MemberBlock>⟧.members (eight rain_4.old rain_5.old
            rain_6.old rain_7.old rain_8.old rain_9.old rain_10.old rain_11.old) (eight rain_4.new rain_5.new rain_6.new
            rain_7.new rain_8.new rain_9.new rain_10.new rain_11.new) buf.old buf.new result }
    {
        match tag.field_number() {
            31 => ImplicitField::<Uint32>::merge(rain_4, alloc, tag, buf, ctx),
            32 => ImplicitField::<Uint32>::merge(rain_5, alloc, tag, buf, ctx),
            33 => ImplicitField::<Uint32>::merge(rain_6, alloc, tag, buf, ctx),
            34 => ImplicitField::<Uint32>::merge(rain_7, alloc, tag, buf, ctx),
            35 => ImplicitField::<Uint32>::merge(rain_8, alloc, tag, buf, ctx),
            36 => ImplicitField::<Uint32>::merge(rain_9, alloc, tag, buf, ctx),
            37 => ImplicitField::<Uint32>::merge(rain_10, alloc, tag, buf, ctx),
            _ => ImplicitField::<Uint32>::merge(rain_11, alloc, tag, buf, ctx),
        }
    }
}

/// The members from `rain_12` to `rain_18` of a [`Day`], which are read and written together.
pub struct DayBlock6;

impl MemberBlock for DayBlock6 {
    type Message = Day;

    type Meaning = And7<u32, u32, u32, u32, u32, u32, u32>;

    ghost members = { block_of (λ m. seven m.rain_12 m.rain_13 m.rain_14 m.rain_15 m.rain_16 m.rain_17 m.rain_18) (
        both_blocks (one 39 ⟦<ImplicitField<Uint32> as Member>⟧.shape) (
        both_blocks (one 40 ⟦<ImplicitField<Uint32> as Member>⟧.shape) (
        both_blocks (one 41 ⟦<ImplicitField<Uint32> as Member>⟧.shape) (
        both_blocks (one 42 ⟦<ImplicitField<Uint32> as Member>⟧.shape) (
        both_blocks (one 43 ⟦<ImplicitField<Uint32> as Member>⟧.shape) (
        both_blocks (one 44 ⟦<ImplicitField<Uint32> as Member>⟧.shape) (
        one 45 ⟦<ImplicitField<Uint32> as Member>⟧.shape))))))) };

    fn visit<V: Visitor>(message: &Day, visitor: &mut V) {
        visitor.visit::<ImplicitField<Uint32>>(39, &message.rain_12);
        visitor.visit::<ImplicitField<Uint32>>(40, &message.rain_13);
        visitor.visit::<ImplicitField<Uint32>>(41, &message.rain_14);
        visitor.visit::<ImplicitField<Uint32>>(42, &message.rain_15);
        visitor.visit::<ImplicitField<Uint32>>(43, &message.rain_16);
        visitor.visit::<ImplicitField<Uint32>>(44, &message.rain_17);
        visitor.visit::<ImplicitField<Uint32>>(45, &message.rain_18);
    }

    fn has(number: u32) -> bool {
        matches!(number, 39 | 40 | 41 | 42 | 43 | 44 | 45)
    }
}

impl DayBlock6 {
    // Merges the field whose tag was read into the member of its number.
    fn take(
        rain_12: &mut u32,
        rain_13: &mut u32,
        rain_14: &mut u32,
        rain_15: &mut u32,
        rain_16: &mut u32,
        rain_17: &mut u32,
        rain_18: &mut u32,
        alloc: Global,
        tag: Tag,
        buf: &mut &[u8],
        ctx: DecodeContext<'_>,
    ) -> Result<(), DecodeError>
        ensures { TakesBlock tag ctx.entry ctx.exit ⟦<DayBlock6 as MemberBlock>⟧.members (seven rain_12.old rain_13.old
            rain_14.old rain_15.old rain_16.old rain_17.old rain_18.old) (seven rain_12.new rain_13.new rain_14.new
            rain_15.new rain_16.new rain_17.new rain_18.new) buf.old buf.new result }
    {
        match tag.field_number() {
            39 => ImplicitField::<Uint32>::merge(rain_12, alloc, tag, buf, ctx),
            40 => ImplicitField::<Uint32>::merge(rain_13, alloc, tag, buf, ctx),
            41 => ImplicitField::<Uint32>::merge(rain_14, alloc, tag, buf, ctx),
            42 => ImplicitField::<Uint32>::merge(rain_15, alloc, tag, buf, ctx),
            43 => ImplicitField::<Uint32>::merge(rain_16, alloc, tag, buf, ctx),
            44 => ImplicitField::<Uint32>::merge(rain_17, alloc, tag, buf, ctx),
            _ => ImplicitField::<Uint32>::merge(rain_18, alloc, tag, buf, ctx),
        }
    }
}

/// The members from `rain_19` to `wind_2` of a [`Day`], which are read and written together.
pub struct DayBlock7;

impl MemberBlock for DayBlock7 {
    type Message = Day;

    type Meaning = And8<u32, u32, u32, u32, u32, u32, u32, u32>;

    ghost members = { block_of (λ m. eight m.rain_19 m.rain_20 m.rain_21 m.rain_22 m.rain_23 m.wind_0 m.wind_1 m.wind_2) (
        both_blocks (one 46 ⟦<ImplicitField<Uint32> as Member>⟧.shape) (
        both_blocks (one 47 ⟦<ImplicitField<Uint32> as Member>⟧.shape) (
        both_blocks (one 48 ⟦<ImplicitField<Uint32> as Member>⟧.shape) (
        both_blocks (one 49 ⟦<ImplicitField<Uint32> as Member>⟧.shape) (
        both_blocks (one 50 ⟦<ImplicitField<Uint32> as Member>⟧.shape) (
        both_blocks (one 51 ⟦<ImplicitField<Uint32> as Member>⟧.shape) (
        both_blocks (one 52 ⟦<ImplicitField<Uint32> as Member>⟧.shape) (
        one 53 ⟦<ImplicitField<Uint32> as Member>⟧.shape)))))))) };

    fn visit<V: Visitor>(message: &Day, visitor: &mut V) {
        visitor.visit::<ImplicitField<Uint32>>(46, &message.rain_19);
        visitor.visit::<ImplicitField<Uint32>>(47, &message.rain_20);
        visitor.visit::<ImplicitField<Uint32>>(48, &message.rain_21);
        visitor.visit::<ImplicitField<Uint32>>(49, &message.rain_22);
        visitor.visit::<ImplicitField<Uint32>>(50, &message.rain_23);
        visitor.visit::<ImplicitField<Uint32>>(51, &message.wind_0);
        visitor.visit::<ImplicitField<Uint32>>(52, &message.wind_1);
        visitor.visit::<ImplicitField<Uint32>>(53, &message.wind_2);
    }

    fn has(number: u32) -> bool {
        matches!(number, 46 | 47 | 48 | 49 | 50 | 51 | 52 | 53)
    }
}

impl DayBlock7 {
    // Merges the field whose tag was read into the member of its number.
    fn take(
        rain_19: &mut u32,
        rain_20: &mut u32,
        rain_21: &mut u32,
        rain_22: &mut u32,
        rain_23: &mut u32,
        wind_0: &mut u32,
        wind_1: &mut u32,
        wind_2: &mut u32,
        alloc: Global,
        tag: Tag,
        buf: &mut &[u8],
        ctx: DecodeContext<'_>,
    ) -> Result<(), DecodeError>
        ensures { TakesBlock tag ctx.entry ctx.exit ⟦<DayBlock7 as MemberBlock>⟧.members (eight rain_19.old rain_20.old
            rain_21.old rain_22.old rain_23.old wind_0.old wind_1.old wind_2.old) (eight rain_19.new rain_20.new
            rain_21.new rain_22.new rain_23.new wind_0.new wind_1.new wind_2.new) buf.old buf.new result }
    {
        match tag.field_number() {
            46 => ImplicitField::<Uint32>::merge(rain_19, alloc, tag, buf, ctx),
            47 => ImplicitField::<Uint32>::merge(rain_20, alloc, tag, buf, ctx),
            48 => ImplicitField::<Uint32>::merge(rain_21, alloc, tag, buf, ctx),
            49 => ImplicitField::<Uint32>::merge(rain_22, alloc, tag, buf, ctx),
            50 => ImplicitField::<Uint32>::merge(rain_23, alloc, tag, buf, ctx),
            51 => ImplicitField::<Uint32>::merge(wind_0, alloc, tag, buf, ctx),
            52 => ImplicitField::<Uint32>::merge(wind_1, alloc, tag, buf, ctx),
            _ => ImplicitField::<Uint32>::merge(wind_2, alloc, tag, buf, ctx),
        }
    }
}

/// The members from `wind_3` to `wind_9` of a [`Day`], which are read and written together.
pub struct DayBlock8;

impl MemberBlock for DayBlock8 {
    type Message = Day;

    type Meaning = And7<u32, u32, u32, u32, u32, u32, u32>;

    ghost members = { block_of (λ m. seven m.wind_3 m.wind_4 m.wind_5 m.wind_6 m.wind_7 m.wind_8 m.wind_9) (
        both_blocks (one 54 ⟦<ImplicitField<Uint32> as Member>⟧.shape) (
        both_blocks (one 55 ⟦<ImplicitField<Uint32> as Member>⟧.shape) (
        both_blocks (one 56 ⟦<ImplicitField<Uint32> as Member>⟧.shape) (
        both_blocks (one 57 ⟦<ImplicitField<Uint32> as Member>⟧.shape) (
        both_blocks (one 58 ⟦<ImplicitField<Uint32> as Member>⟧.shape) (
        both_blocks (one 59 ⟦<ImplicitField<Uint32> as Member>⟧.shape) (
        one 60 ⟦<ImplicitField<Uint32> as Member>⟧.shape))))))) };

    fn visit<V: Visitor>(message: &Day, visitor: &mut V) {
        visitor.visit::<ImplicitField<Uint32>>(54, &message.wind_3);
        visitor.visit::<ImplicitField<Uint32>>(55, &message.wind_4);
        visitor.visit::<ImplicitField<Uint32>>(56, &message.wind_5);
        visitor.visit::<ImplicitField<Uint32>>(57, &message.wind_6);
        visitor.visit::<ImplicitField<Uint32>>(58, &message.wind_7);
        visitor.visit::<ImplicitField<Uint32>>(59, &message.wind_8);
        visitor.visit::<ImplicitField<Uint32>>(60, &message.wind_9);
    }

    fn has(number: u32) -> bool {
        matches!(number, 54 | 55 | 56 | 57 | 58 | 59 | 60)
    }
}

impl DayBlock8 {
    // Merges the field whose tag was read into the member of its number.
    fn take(
        wind_3: &mut u32,
        wind_4: &mut u32,
        wind_5: &mut u32,
        wind_6: &mut u32,
        wind_7: &mut u32,
        wind_8: &mut u32,
        wind_9: &mut u32,
        alloc: Global,
        tag: Tag,
        buf: &mut &[u8],
        ctx: DecodeContext<'_>,
    ) -> Result<(), DecodeError>
        ensures { TakesBlock tag ctx.entry ctx.exit ⟦<DayBlock8 as MemberBlock>⟧.members (seven wind_3.old wind_4.old
            wind_5.old wind_6.old wind_7.old wind_8.old wind_9.old) (seven wind_3.new wind_4.new wind_5.new wind_6.new
            wind_7.new wind_8.new wind_9.new) buf.old buf.new result }
    {
        match tag.field_number() {
            54 => ImplicitField::<Uint32>::merge(wind_3, alloc, tag, buf, ctx),
            55 => ImplicitField::<Uint32>::merge(wind_4, alloc, tag, buf, ctx),
            56 => ImplicitField::<Uint32>::merge(wind_5, alloc, tag, buf, ctx),
            57 => ImplicitField::<Uint32>::merge(wind_6, alloc, tag, buf, ctx),
            58 => ImplicitField::<Uint32>::merge(wind_7, alloc, tag, buf, ctx),
            59 => ImplicitField::<Uint32>::merge(wind_8, alloc, tag, buf, ctx),
            _ => ImplicitField::<Uint32>::merge(wind_9, alloc, tag, buf, ctx),
        }
    }
}

/// The members from `wind_10` to `wind_17` of a [`Day`], which are read and written together.
pub struct DayBlock9;

impl MemberBlock for DayBlock9 {
    type Message = Day;

    type Meaning = And8<u32, u32, u32, u32, u32, u32, u32, u32>;

    ghost members = { block_of (λ m. eight m.wind_10 m.wind_11 m.wind_12 m.wind_13 m.wind_14 m.wind_15 m.wind_16 m.wind_17) (
        both_blocks (one 61 ⟦<ImplicitField<Uint32> as Member>⟧.shape) (
        both_blocks (one 62 ⟦<ImplicitField<Uint32> as Member>⟧.shape) (
        both_blocks (one 63 ⟦<ImplicitField<Uint32> as Member>⟧.shape) (
        both_blocks (one 64 ⟦<ImplicitField<Uint32> as Member>⟧.shape) (
        both_blocks (one 65 ⟦<ImplicitField<Uint32> as Member>⟧.shape) (
        both_blocks (one 66 ⟦<ImplicitField<Uint32> as Member>⟧.shape) (
        both_blocks (one 67 ⟦<ImplicitField<Uint32> as Member>⟧.shape) (
        one 68 ⟦<ImplicitField<Uint32> as Member>⟧.shape)))))))) };

    fn visit<V: Visitor>(message: &Day, visitor: &mut V) {
        visitor.visit::<ImplicitField<Uint32>>(61, &message.wind_10);
        visitor.visit::<ImplicitField<Uint32>>(62, &message.wind_11);
        visitor.visit::<ImplicitField<Uint32>>(63, &message.wind_12);
        visitor.visit::<ImplicitField<Uint32>>(64, &message.wind_13);
        visitor.visit::<ImplicitField<Uint32>>(65, &message.wind_14);
        visitor.visit::<ImplicitField<Uint32>>(66, &message.wind_15);
        visitor.visit::<ImplicitField<Uint32>>(67, &message.wind_16);
        visitor.visit::<ImplicitField<Uint32>>(68, &message.wind_17);
    }

    fn has(number: u32) -> bool {
        matches!(number, 61 | 62 | 63 | 64 | 65 | 66 | 67 | 68)
    }
}

impl DayBlock9 {
    // Merges the field whose tag was read into the member of its number.
    fn take(
        wind_10: &mut u32,
        wind_11: &mut u32,
        wind_12: &mut u32,
        wind_13: &mut u32,
        wind_14: &mut u32,
        wind_15: &mut u32,
        wind_16: &mut u32,
        wind_17: &mut u32,
        alloc: Global,
        tag: Tag,
        buf: &mut &[u8],
        ctx: DecodeContext<'_>,
    ) -> Result<(), DecodeError>
        ensures { TakesBlock tag ctx.entry ctx.exit ⟦<DayBlock9 as MemberBlock>⟧.members (eight wind_10.old wind_11.old
            wind_12.old wind_13.old wind_14.old wind_15.old wind_16.old wind_17.old) (eight wind_10.new wind_11.new
            wind_12.new wind_13.new wind_14.new wind_15.new wind_16.new wind_17.new) buf.old buf.new result }
    {
        match tag.field_number() {
            61 => ImplicitField::<Uint32>::merge(wind_10, alloc, tag, buf, ctx),
            62 => ImplicitField::<Uint32>::merge(wind_11, alloc, tag, buf, ctx),
            63 => ImplicitField::<Uint32>::merge(wind_12, alloc, tag, buf, ctx),
            64 => ImplicitField::<Uint32>::merge(wind_13, alloc, tag, buf, ctx),
            65 => ImplicitField::<Uint32>::merge(wind_14, alloc, tag, buf, ctx),
            66 => ImplicitField::<Uint32>::merge(wind_15, alloc, tag, buf, ctx),
            67 => ImplicitField::<Uint32>::merge(wind_16, alloc, tag, buf, ctx),
            _ => ImplicitField::<Uint32>::merge(wind_17, alloc, tag, buf, ctx),
        }
    }
}

/// The members from `wind_18` to `remarks` of a [`Day`], which are read and written together.
pub struct DayBlock10;

impl MemberBlock for DayBlock10 {
    type Message = Day;

    type Meaning = And8<
        u32,
        u32,
        u32,
        u32,
        u32,
        u32,
        Option<<Place as Blank>::Meaning>,
        [And<u32, [u8; 0]>; 0],
    >;

    ghost members = { block_of (λ m. eight m.wind_18 m.wind_19 m.wind_20 m.wind_21 m.wind_22 m.wind_23 m.place m.remarks) (
        both_blocks (one 69 ⟦<ImplicitField<Uint32> as Member>⟧.shape) (
        both_blocks (one 70 ⟦<ImplicitField<Uint32> as Member>⟧.shape) (
        both_blocks (one 71 ⟦<ImplicitField<Uint32> as Member>⟧.shape) (
        both_blocks (one 72 ⟦<ImplicitField<Uint32> as Member>⟧.shape) (
        both_blocks (one 73 ⟦<ImplicitField<Uint32> as Member>⟧.shape) (
        both_blocks (one 74 ⟦<ImplicitField<Uint32> as Member>⟧.shape) (
        both_blocks (one 75 ⟦<MessageField<Place> as Member>⟧.shape) (
        one 76 ⟦<MapField<Uint32, Str> as Member>⟧.shape)))))))) };

    fn visit<V: Visitor>(message: &Day, visitor: &mut V) {
        visitor.visit::<ImplicitField<Uint32>>(69, &message.wind_18);
        visitor.visit::<ImplicitField<Uint32>>(70, &message.wind_19);
        visitor.visit::<ImplicitField<Uint32>>(71, &message.wind_20);
        visitor.visit::<ImplicitField<Uint32>>(72, &message.wind_21);
        visitor.visit::<ImplicitField<Uint32>>(73, &message.wind_22);
        visitor.visit::<ImplicitField<Uint32>>(74, &message.wind_23);
        visitor.visit::<MessageField<Place>>(75, &message.place);
        visitor.visit::<MapField<Uint32, Str>>(76, &message.remarks);
    }

    fn has(number: u32) -> bool {
        matches!(number, 69 | 70 | 71 | 72 | 73 | 74 | 75 | 76)
    }
}

impl DayBlock10 {
    // Merges the field whose tag was read into the member of its number.
    fn take(
        wind_18: &mut u32,
        wind_19: &mut u32,
        wind_20: &mut u32,
        wind_21: &mut u32,
        wind_22: &mut u32,
        wind_23: &mut u32,
        place: &mut Option<Place>,
        remarks: &mut Map<u32, String>,
        alloc: Global,
        tag: Tag,
        buf: &mut &[u8],
        ctx: DecodeContext<'_>,
    ) -> Result<(), DecodeError>
        ensures { TakesBlock tag ctx.entry ctx.exit ⟦<DayBlock10 as MemberBlock>⟧.members (eight wind_18.old wind_19.old
            wind_20.old wind_21.old wind_22.old wind_23.old place.old remarks.old) (eight wind_18.new wind_19.new
            wind_20.new wind_21.new wind_22.new wind_23.new place.new remarks.new) buf.old buf.new result }
    {
        match tag.field_number() {
            69 => ImplicitField::<Uint32>::merge(wind_18, alloc, tag, buf, ctx),
            70 => ImplicitField::<Uint32>::merge(wind_19, alloc, tag, buf, ctx),
            71 => ImplicitField::<Uint32>::merge(wind_20, alloc, tag, buf, ctx),
            72 => ImplicitField::<Uint32>::merge(wind_21, alloc, tag, buf, ctx),
            73 => ImplicitField::<Uint32>::merge(wind_22, alloc, tag, buf, ctx),
            74 => ImplicitField::<Uint32>::merge(wind_23, alloc, tag, buf, ctx),
            75 => MessageField::<Place>::merge(place, alloc, tag, buf, ctx),
            _ => MapField::<Uint32, Str>::merge(remarks, alloc, tag, buf, ctx),
        }
    }
}

impl MessageFields for Day {
    type Meaning = And11<
        <DayBlock1 as MemberBlock>::Meaning,
        <DayBlock2 as MemberBlock>::Meaning,
        <DayBlock3 as MemberBlock>::Meaning,
        <DayBlock4 as MemberBlock>::Meaning,
        <DayBlock5 as MemberBlock>::Meaning,
        <DayBlock6 as MemberBlock>::Meaning,
        <DayBlock7 as MemberBlock>::Meaning,
        <DayBlock8 as MemberBlock>::Meaning,
        <DayBlock9 as MemberBlock>::Meaning,
        <DayBlock10 as MemberBlock>::Meaning,
        Unknowns,
    >;

    const COST: usize = 792;

    ghost COST = { 792 };

    ghost positive = { lit< tt };

    ghost schema = { block ⟦<DayBlock1 as MemberBlock>⟧.members (
        block ⟦<DayBlock2 as MemberBlock>⟧.members (
        block ⟦<DayBlock3 as MemberBlock>⟧.members (
        block ⟦<DayBlock4 as MemberBlock>⟧.members (
        block ⟦<DayBlock5 as MemberBlock>⟧.members (
        block ⟦<DayBlock6 as MemberBlock>⟧.members (
        block ⟦<DayBlock7 as MemberBlock>⟧.members (
        block ⟦<DayBlock8 as MemberBlock>⟧.members (
        block ⟦<DayBlock9 as MemberBlock>⟧.members (
        block ⟦<DayBlock10 as MemberBlock>⟧.members (
        keep_unknown (λ m. m.unknown_fields.records))))))))))) };

    ghost sound = { refl };

    fn visit<V: Visitor>(&self, visitor: &mut V) {
        DayBlock1::visit(self, visitor);
        DayBlock2::visit(self, visitor);
        DayBlock3::visit(self, visitor);
        DayBlock4::visit(self, visitor);
        DayBlock5::visit(self, visitor);
        DayBlock6::visit(self, visitor);
        DayBlock7::visit(self, visitor);
        DayBlock8::visit(self, visitor);
        DayBlock9::visit(self, visitor);
        DayBlock10::visit(self, visitor);
        visitor.visit_unknown_fields(&self.unknown_fields);
    }

    fn take(
        &mut self,
        alloc: Global,
        tag: Tag,
        buf: &mut &[u8],
        ctx: DecodeContext<'_>,
    ) -> Result<(), DecodeError> {
        let number = tag.field_number();
        if DayBlock1::has(number) {
            DayBlock1::take(
                &mut self.station,
                &mut self.number,
                &mut self.temperature_0,
                &mut self.temperature_1,
                &mut self.temperature_2,
                &mut self.temperature_3,
                &mut self.temperature_4,
                alloc,
                tag,
                buf,
                ctx,
            )
        } else if DayBlock2::has(number) {
            DayBlock2::take(
                &mut self.temperature_5,
                &mut self.temperature_6,
                &mut self.temperature_7,
                &mut self.temperature_8,
                &mut self.temperature_9,
                &mut self.temperature_10,
                &mut self.temperature_11,
                &mut self.temperature_12,
                alloc,
                tag,
                buf,
                ctx,
            )
        } else if DayBlock3::has(number) {
            DayBlock3::take(
                &mut self.temperature_13,
                &mut self.temperature_14,
                &mut self.temperature_15,
                &mut self.temperature_16,
                &mut self.temperature_17,
                &mut self.temperature_18,
                &mut self.temperature_19,
                alloc,
                tag,
                buf,
                ctx,
            )
        } else if DayBlock4::has(number) {
            DayBlock4::take(
                &mut self.temperature_20,
                &mut self.temperature_21,
                &mut self.temperature_22,
                &mut self.temperature_23,
                &mut self.rain_0,
                &mut self.rain_1,
                &mut self.rain_2,
                &mut self.rain_3,
                alloc,
                tag,
                buf,
                ctx,
            )
        } else if DayBlock5::has(number) {
            DayBlock5::take(
                &mut self.rain_4,
                &mut self.rain_5,
                &mut self.rain_6,
                &mut self.rain_7,
                &mut self.rain_8,
                &mut self.rain_9,
                &mut self.rain_10,
                &mut self.rain_11,
                alloc,
                tag,
                buf,
                ctx,
            )
        } else if DayBlock6::has(number) {
            DayBlock6::take(
                &mut self.rain_12,
                &mut self.rain_13,
                &mut self.rain_14,
                &mut self.rain_15,
                &mut self.rain_16,
                &mut self.rain_17,
                &mut self.rain_18,
                alloc,
                tag,
                buf,
                ctx,
            )
        } else if DayBlock7::has(number) {
            DayBlock7::take(
                &mut self.rain_19,
                &mut self.rain_20,
                &mut self.rain_21,
                &mut self.rain_22,
                &mut self.rain_23,
                &mut self.wind_0,
                &mut self.wind_1,
                &mut self.wind_2,
                alloc,
                tag,
                buf,
                ctx,
            )
        } else if DayBlock8::has(number) {
            DayBlock8::take(
                &mut self.wind_3,
                &mut self.wind_4,
                &mut self.wind_5,
                &mut self.wind_6,
                &mut self.wind_7,
                &mut self.wind_8,
                &mut self.wind_9,
                alloc,
                tag,
                buf,
                ctx,
            )
        } else if DayBlock9::has(number) {
            DayBlock9::take(
                &mut self.wind_10,
                &mut self.wind_11,
                &mut self.wind_12,
                &mut self.wind_13,
                &mut self.wind_14,
                &mut self.wind_15,
                &mut self.wind_16,
                &mut self.wind_17,
                alloc,
                tag,
                buf,
                ctx,
            )
        } else if DayBlock10::has(number) {
            DayBlock10::take(
                &mut self.wind_18,
                &mut self.wind_19,
                &mut self.wind_20,
                &mut self.wind_21,
                &mut self.wind_22,
                &mut self.wind_23,
                &mut self.place,
                &mut self.remarks,
                alloc,
                tag,
                buf,
                ctx,
            )
        } else {
            unknown::keep(alloc, &mut self.unknown_fields, tag, buf, ctx)
        }
    }
}

impl Blank for Day {
    type Meaning = <Day as MessageFields>::Meaning;

    ghost meaning = { ⟦<Day as MessageFields>⟧.schema.meaning };

    ghost blank_is = { ⟦<Day as MessageFields>⟧.schema.blank };

    fn blank(alloc: Global) -> Day {
        Day {
            station: String::new(alloc),
            number: 0,
            temperature_0: 0,
            temperature_1: 0,
            temperature_2: 0,
            temperature_3: 0,
            temperature_4: 0,
            temperature_5: 0,
            temperature_6: 0,
            temperature_7: 0,
            temperature_8: 0,
            temperature_9: 0,
            temperature_10: 0,
            temperature_11: 0,
            temperature_12: 0,
            temperature_13: 0,
            temperature_14: 0,
            temperature_15: 0,
            temperature_16: 0,
            temperature_17: 0,
            temperature_18: 0,
            temperature_19: 0,
            temperature_20: 0,
            temperature_21: 0,
            temperature_22: 0,
            temperature_23: 0,
            rain_0: 0,
            rain_1: 0,
            rain_2: 0,
            rain_3: 0,
            rain_4: 0,
            rain_5: 0,
            rain_6: 0,
            rain_7: 0,
            rain_8: 0,
            rain_9: 0,
            rain_10: 0,
            rain_11: 0,
            rain_12: 0,
            rain_13: 0,
            rain_14: 0,
            rain_15: 0,
            rain_16: 0,
            rain_17: 0,
            rain_18: 0,
            rain_19: 0,
            rain_20: 0,
            rain_21: 0,
            rain_22: 0,
            rain_23: 0,
            wind_0: 0,
            wind_1: 0,
            wind_2: 0,
            wind_3: 0,
            wind_4: 0,
            wind_5: 0,
            wind_6: 0,
            wind_7: 0,
            wind_8: 0,
            wind_9: 0,
            wind_10: 0,
            wind_11: 0,
            wind_12: 0,
            wind_13: 0,
            wind_14: 0,
            wind_15: 0,
            wind_16: 0,
            wind_17: 0,
            wind_18: 0,
            wind_19: 0,
            wind_20: 0,
            wind_21: 0,
            wind_22: 0,
            wind_23: 0,
            place: None,
            remarks: Map::new(alloc),
            unknown_fields: UnknownFields::new(alloc),
        }
    }
}

impl FieldsMeaning for Day {
    ghost means = { λ m. refl };

    ghost starts = { refl };
}

impl MessageImpl for Day {
    type Impl = FieldByField;
}

const _: () = prove!(size_of::<Day>() <= Day::COST);

impl Day {
    /// The full name of the message.
    pub const FULL_NAME: &'static str = "weather.Day";
}
