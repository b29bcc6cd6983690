//! What the definitions of options and rules say together: each law is a function with nothing to do, whose
//! contract is the law.

ghost use Rattle.std.specs.Prelude.{◌≡◌, ◌↔◌, ◌==◌, ◌⊎◌, ℕ, ℤ, List, [], ◌∷◌, ◌++◌, Bool, FitsSigned, IfSome, None, Option, Some, codes, false};
ghost use Rattle.std.specs.Prelude.{Err, Ok, if◌then◌else◌, map, not, option_map, pos, true, unwrap_or};
ghost use Rattle.std.specs.Int.{from_bool, w64};
ghost use Rattle.std.specs.Int.Signed.{◌≤ℤ◌, ◌<ℤ◌};
ghost use Rattle.std.specs.List.{AllByRecursion, filter_map, flat_map, last_or};
ghost use Rattle.buffa_bytes.specs.Scalars.{bool_of, sint64_of, sint64_encoding, zigzag};
ghost use Rattle.buffa_bytes.specs.Values.{int32_of};
ghost use Rattle.buffa_bytes.specs.declared.error.DecodeError.{DecodeError};
ghost use Rattle.buffa_bytes.specs.declared.error.DecodeError.TheVariants.{WireTypeMismatch};
ghost use Rattle.buffa_bytes.specs.declared.wire_type.WireType.{WireType};
ghost use Rattle.buffa_bytes.specs.declared.wire_type.WireType.TheVariants.{Fixed32, Fixed64, LengthDelimited, StartGroup, Varint};
ghost use Rattle.buffa_bytes.specs.Pinned.{IsCopied, SameIsOne};
ghost use Rattle.buffa_wire.specs.BudgetLeft.{BudgetLeft, nothing};
ghost use Rattle.buffa_wire.specs.NumberInRecord.{varint_in};
ghost use Rattle.buffa_wire.specs.Encoding.{records_encoding};
ghost use Rattle.buffa_wire.specs.KeptField.{keep_charge};
ghost use Rattle.buffa_wire.specs.Parse.{AreValid};
ghost use Rattle.buffa_wire.specs.Records.{FieldData, Held, Records, bytes, fixed32, fixed64, group, height, records_of, varint};
ghost use Rattle.buffa_wire.specs.Takes.{cost_of, merged_of};
ghost use Rattle.buffa_codec.specs.Packed.{numbers_in};
ghost use Rattle.buffa_codec.specs.Decoded.{last_read, string_held};
ghost use Rattle.buffa_codec.specs.Strict.{unless_found};
ghost use Rattle.buffa_codec.specs.RecordsOfNumber.{sub};
ghost use Rattle.buffa_fields.specs.Calls.{KeepsFields};
ghost use Rattle.buffa_fields.specs.UndeclaredFields.{AllNumbers, keep_takes};
ghost use Rattle.buffa_fields.specs.Values.{field_value_at, some_taken};
ghost use Rattle.buffa_map.specs.Scalars.{number_reading};
ghost use Rattle.sample_validator.specs.Meaning.{OthersAreKept, ReadsDeprecated, TakesOptions};
ghost use Rattle.sample_validator.specs.Meaning.{options_charge, options_records, options_takes};
ghost use Rattle.sample_validator.specs.Options.{IsMalformed, IsReadWhole, bool_option, int32_list, int32_option};
ghost use Rattle.sample_validator.specs.Options.{int32s_in, string_option, varint_fault};
ghost use Rattle.sample_validator.specs.Pinned.{EqualByMeaning, AcceptsOrBreaks, OneViolation, NotBoth};
ghost use Rattle.sample_validator.specs.Rules.{Accepts, AreMalformed, AreRead, BreaksRule, rules_in};
ghost use Rattle.sample_validator.specs.declared.carrier.Carrier.{Carrier};
ghost use Rattle.sample_validator.specs.declared.options.FieldOptions.{FieldOptions};
ghost use Rattle.sample_validator.specs.declared.price.Price.{Price};
ghost use Rattle.sample_validator.specs.declared.rules.Violation.TheVariants.{Missing, TooGreat, TooSmall};

use crate::carrier::Carrier;
use crate::options::FieldOptions;
use crate::price::{Price, PriceCodec};
use crate::rules::{Rules, Violation};
use buffa_codec::{ExtensionCodec, Numbered, PackableCodec, SingularCodec};
use buffa_ext::ExtensionSet;
use buffa_fields::messages::message::members_read_back;
use buffa_fields::messages::message_fields::MessageFields;
use buffa_wire::{Blank, MessageSpec};

/// A value is accepted, or it breaks a rule, and not both; and the rule that is named is one. Each is said by its word, and in full.
///
/// Nothing is left out.
pub fn judgements_are_pinned()
    ensures judged { AcceptsOrBreaks }
    ensures either { NotBoth }
    ensures reported { OneViolation }
    ensures accepted { (rules : Rules) (o : Option ℤ) → Accepts rules o ⊎ ((v : Violation) × BreaksRule rules o v) }
    ensures not_both { (rules : Rules) (o : Option ℤ) (v : Violation) → Accepts rules o → BreaksRule rules o v → ⊥ }
    ensures one { (rules : Rules) (o : Option ℤ) (v w : Violation) →
        BreaksRule rules o v → BreaksRule rules o w → v ≡ w }
{}

/// Which values rules accept, and which rule a value breaks: both bounds may be met, or the one that is set; a value below the least
/// is too small even where it is above the greatest, too, and a value is missing only where one is asked for. Where each rule is
/// found, and of which the fault is told where one isn't read.
pub fn rules_are_these()
    ensures missing { (rules : Rules) → Accepts rules None ↔ (rules.required ≡ false) }
    ensures reported_missing { (rules : Rules) (o : Option ℤ) → BreaksRule rules o Missing ↔ ((o ≡ None) × (rules.required ≡ true)) }
    ensures free { (v : ℤ) (asked : Bool) → Accepts (record { min = None; max = None; required = asked }) (Some v) }
    ensures bound { (v least most : ℤ) (asked : Bool) →
        Accepts (record { min = Some least; max = Some most; required = asked }) (Some v)
        ↔ ((least ≤ℤ v) × (v ≤ℤ most)) }
    ensures least { (v least : ℤ) (asked : Bool) →
        Accepts (record { min = Some least; max = None; required = asked }) (Some v) ↔ (least ≤ℤ v) }
    ensures most { (v most : ℤ) (asked : Bool) →
        Accepts (record { min = None; max = Some most; required = asked }) (Some v) ↔ (v ≤ℤ most) }
    ensures too_small { (rules : Rules) (o : Option ℤ) → BreaksRule rules o TooSmall
        ↔ ((v least : ℤ) × (o ≡ Some v) × (rules.min ≡ Some least) × (v <ℤ least)) }
    ensures too_great { (rules : Rules) (o : Option ℤ) → BreaksRule rules o TooGreat
        ↔ ((v most : ℤ) × (o ≡ Some v) × (rules.max ≡ Some most) × (most <ℤ v)
        × IfSome rules.min (λ least. least ≤ℤ v)) }
    ensures found { (rs : List (ℕ × FieldData)) →
        ((rules_in rs).min ≡ last_read (λ d. option_map int32_of (varint_in d)) (sub 50011 rs))
        × ((rules_in rs).max ≡ last_read (λ d. option_map int32_of (varint_in d)) (sub 50012 rs))
        × ((rules_in rs).required ≡ unwrap_or (last_read (λ d. option_map bool_of (varint_in d)) (sub 50013 rs)) false) }
    ensures read { (rs : List (ℕ × FieldData)) → AreRead rs
        ↔ (AllByRecursion (λ d. unless_found (varint_in d) Varint 50011 d ≡ None) (sub 50011 rs)
        × AllByRecursion (λ d. unless_found (varint_in d) Varint 50012 d ≡ None) (sub 50012 rs)
        × AllByRecursion (λ d. unless_found (varint_in d) Varint 50013 d ≡ None) (sub 50013 rs)) }
    ensures not_read { (rs : List (ℕ × FieldData)) (e : DecodeError) → AreMalformed rs e
        ↔ (IsMalformed 50011 rs e ⊎ ((IsReadWhole 50011 rs × IsMalformed 50012 rs e)
        ⊎ (IsReadWhole 50011 rs × IsReadWhole 50012 rs × IsMalformed 50013 rs e))) }
{}

/// What is read of an option of any number: of an `int32` or a `bool` its last varint, of a string the last that is UTF-8, and of a
/// list the numbers of all its records, one or packed ones each. An option is read whole where each of its records is a varint; or
/// it is malformed, by the fault of the first that is none, which tells the wire type that is there.
pub fn options_are_read_so()
    ensures int32 { (n : ℕ) (rs : List (ℕ × FieldData)) →
        int32_option n rs ≡ last_or None (filter_map (λ d. option_map int32_of (varint_in d)) (sub n rs)) }
    ensures boolean { (n : ℕ) (rs : List (ℕ × FieldData)) →
        bool_option n rs ≡ last_or None (filter_map (λ d. option_map bool_of (varint_in d)) (sub n rs)) }
    ensures string { (n : ℕ) (rs : List (ℕ × FieldData)) → string_option n rs ≡ last_or None (filter_map string_held (sub n rs)) }
    ensures list { (n : ℕ) (rs : List (ℕ × FieldData)) → int32_list n rs ≡ flat_map int32s_in (sub n rs) }
    ensures one { (x : ℕ) → int32s_in (varint x) ≡ int32_of x ∷ [] }
    ensures packed { (b : List ℕ) → int32s_in (bytes b) ≡ map int32_of (numbers_in Varint b) }
    ensures no_number { (x : ℕ) (rs : Records) → (int32s_in (fixed32 x) ≡ []) × (int32s_in (fixed64 x) ≡ [])
        × (int32s_in (group rs) ≡ []) }
    ensures no_fault { (n x : ℕ) → varint_fault n (varint x) ≡ None }
    ensures fault { (n x : ℕ) (b : List ℕ) (rs : Records) →
        (varint_fault n (fixed32 x) ≡ Some (WireTypeMismatch n Varint Fixed32))
        × (varint_fault n (fixed64 x) ≡ Some (WireTypeMismatch n Varint Fixed64))
        × (varint_fault n (bytes b) ≡ Some (WireTypeMismatch n Varint LengthDelimited))
        × (varint_fault n (group rs) ≡ Some (WireTypeMismatch n Varint StartGroup)) }
    ensures whole { (n : ℕ) (rs : List (ℕ × FieldData)) → IsReadWhole n rs
        ↔ AllByRecursion (λ d. unless_found (varint_in d) Varint n d ≡ None) (sub n rs) }
    ensures malformed { (n : ℕ) (rs : List (ℕ × FieldData)) (e : DecodeError) → IsMalformed n rs e
        ↔ ((front : List FieldData) × (d : FieldData) × (back : List FieldData) × (sub n rs ≡ front ++ d ∷ back)
        × AllByRecursion (λ x. unless_found (varint_in x) Varint n x ≡ None) front
        × (unless_found (varint_in d) Varint n d ≡ Some e)) }
{}

/// A price is a number, read and written as a `sint64`, in lists too, packed or not.
pub fn prices_are_sint64()
    ensures meaning { (p : Price) → ⟦<Price as Blank>⟧.meaning p ≡ p.cents }
    ensures blank { ⟦<Price as Blank>⟧.blank_is ≡ pos 0 }
    ensures value { (n : ℕ) → ⟦<PriceCodec as Numbered>⟧.value_of n ≡ sint64_of n }
    ensures number { (v : ℤ) → ⟦<PriceCodec as Numbered>⟧.number_of v ≡ zigzag v }
    ensures reads { (ds : List FieldData) (o : Option ℤ) → ⟦<PriceCodec as ExtensionCodec>⟧.reads ds o
        ↔ (o ≡ last_read (λ d. option_map sint64_of (varint_in d)) ds) }
    ensures records { (v : ℤ) → ⟦<PriceCodec as ExtensionCodec>⟧.extension_data v ≡ varint (zigzag v) ∷ [] }
    ensures holds { (v : ℤ) (o : Option ℤ) → ⟦<PriceCodec as ExtensionCodec>⟧.holds v o ↔ (o ≡ Some v) }
    ensures one { (n : ℕ) (b : BudgetLeft) (d : FieldData) → ⟦<PriceCodec as SingularCodec>⟧.one n b d
        ≡ option_map sint64_of (varint_in d) }
    ensures packed { (bs : List ℕ) → ⟦<PriceCodec as SingularCodec>⟧.packed bs ≡ map sint64_of (numbers_in Varint bs) }
    ensures field_data { (v : ℤ) → ⟦<PriceCodec as SingularCodec>⟧.field_data v ≡ varint (zigzag v) }
    ensures packed_encoding { (v : ℤ) → ⟦<PriceCodec as PackableCodec>⟧.packed_encoding v ≡ sint64_encoding v }
    ensures back { (v : ℤ) → ⟦<PriceCodec as SingularCodec>⟧.back v ≡ v }
    ensures fits { (v : ℤ) → ⟦<PriceCodec as SingularCodec>⟧.fits v ↔ FitsSigned w64 v }
    ensures normal { (v : ℤ) → ⟦<PriceCodec as SingularCodec>⟧.normal v }
    ensures accepted { (v : ℤ) → ⟦<PriceCodec as SingularCodec>⟧.refusal v ≡ None }
    ensures free { ⟦<PriceCodec as SingularCodec>⟧.never_fails }
    ensures asks { (d : FieldData) → ⟦<PriceCodec as SingularCodec>⟧.asks d → ⊥ }
    ensures cost { (d : FieldData) → ⟦<PriceCodec as SingularCodec>⟧.cost d ≡ nothing }
    ensures unspent { (n : ℕ) (b left : BudgetLeft) (d : FieldData) → ⟦<PriceCodec as SingularCodec>⟧.leaves n b d left
        → left ≡ b }
{}

/// `==` says exactly whether two of these are one. It leaves nothing out.
pub fn equal_ones_are_one()
    ensures price { SameIsOne ⟦<Price as PartialEq>⟧.eq }
    ensures rules { SameIsOne ⟦<Rules as PartialEq>⟧.eq }
    ensures violation { SameIsOne ⟦<Violation as PartialEq>⟧.eq }
{}

/// What `clone` makes of each of these is the same again, and it doesn't fail. It leaves nothing out.
pub fn clones_are_these()
    ensures price { IsCopied ⟦<Price as Clone>⟧.is_clone ⟦<Price as Clone>⟧.is_infallible }
    ensures rules { IsCopied ⟦<Rules as Clone>⟧.is_clone ⟦<Rules as Clone>⟧.is_infallible }
    ensures violation { IsCopied ⟦<Violation as Clone>⟧.is_clone ⟦<Violation as Clone>⟧.is_infallible }
{}

/// What lends its unknown fields to extensions: under which name, which list, and what stays when it changes.
pub fn holders_are_these()
    ensures options { ⟦<FieldOptions as ExtensionSet>⟧.fqn ≡ codes "google.protobuf.FieldOptions" }
    ensures fields { (m : FieldOptions) → ⟦<FieldOptions as ExtensionSet>⟧.fields_of m ≡ m.fields }
    ensures declared { (m : FieldOptions) (w : Held) →
        (⟦<FieldOptions as ExtensionSet>⟧.with_fields m w).deprecated ≡ m.deprecated }
    ensures carrier { ⟦<Carrier as ExtensionSet>⟧.fqn ≡ codes "test.Carrier" }
    ensures records { (m : Carrier) → ⟦<Carrier as ExtensionSet>⟧.fields_of m ≡ m.fields }
{}

/// What options and carriers mean, and from which value they start: what the declared one says, and the records of all
/// others in order. Options are equal where they mean the same. Nothing is left out.
pub fn options_are_equal_by_meaning()
    ensures deprecated { (m : FieldOptions) → (⟦<FieldOptions as Blank>⟧.meaning m).0 ≡ m.deprecated }
    ensures others { (m : FieldOptions) → (⟦<FieldOptions as Blank>⟧.meaning m).1 ≡ m.fields.records }
    ensures carrier { (m : Carrier) → ⟦<Carrier as Blank>⟧.meaning m ≡ m.fields.records }
    ensures blank { (⟦<FieldOptions as Blank>⟧.blank_is ≡ (None, [])) × (⟦<Carrier as Blank>⟧.blank_is ≡ []) }
    ensures equal { EqualByMeaning ⟦<FieldOptions as PartialEq>⟧.eq ⟦<FieldOptions as Blank>⟧.meaning }
{}

/// Which messages they are: what bytes make of them, what they cost, and their encoding. Nothing is left out.
pub fn messages_are_these()
    ensures options { (⟦<FieldOptions as MessageSpec>⟧.merged ≡ merged_of options_takes)
        × (⟦<FieldOptions as MessageSpec>⟧.cost ≡ cost_of options_charge) }
    ensures carrier { (⟦<Carrier as MessageSpec>⟧.merged ≡ merged_of keep_takes)
        × (⟦<Carrier as MessageSpec>⟧.cost ≡ cost_of keep_charge) }
    ensures records { (v : _) → ⟦<FieldOptions as MessageSpec>⟧.records v ≡ options_records v }
    ensures encoding { (v : _) → ⟦<FieldOptions as MessageSpec>⟧.encoding v ≡ records_encoding (options_records v) }
    ensures carrier_records { ⟦<Carrier as MessageSpec>⟧.records ≡ (λ rs. rs) }
    ensures carrier_encoding { ⟦<Carrier as MessageSpec>⟧.encoding ≡ records_encoding }
    ensures slots { (⟦<FieldOptions as MessageSpec>⟧.slots ≡ (λ _. [])) × (⟦<Carrier as MessageSpec>⟧.slots ≡ (λ _. [])) }
    ensures costs { (⟦<FieldOptions as MessageSpec>⟧.COST ≡ 32) × (⟦<Carrier as MessageSpec>⟧.COST ≡ 24) }
{}

/// What the words mean that say which message options are: field 3 is a `bool` that is there or isn't, for which nothing is charged,
/// and is written first; all others are kept behind one another, and none of these has its number.
pub fn options_mean_so()
    ensures takes { (d n : ℕ) (v : Option Bool × List (ℕ × FieldData)) (w : WireType) (p : List ℕ) → options_takes d v n w p
        ≡ (if n == 3 then option_map (λ x. (x, v.1)) (some_taken (number_reading Varint false bool_of) d v.0 n w p)
        else option_map (λ y. (v.0, y)) (keep_takes d v.1 n w p)) }
    ensures charge { (d n : ℕ) (w : WireType) (bs : List ℕ) →
        options_charge d n w bs ≡ (if n == 3 then nothing else keep_charge d n w bs) }
    ensures absent { (rs : List (ℕ × FieldData)) → options_records (None, rs) ≡ rs }
    ensures there { (b : Bool) (rs : List (ℕ × FieldData)) →
        options_records (Some b, rs) ≡ (3, varint (from_bool b)) ∷ rs }
    ensures kept { (v : Option Bool × List (ℕ × FieldData)) → OthersAreKept v
        ↔ (AreValid (records_of v.1) × AllNumbers (λ n. not (n == 3)) v.1) }
    ensures read { (d n : ℕ) (old new : Option Bool) (w : WireType) (bs rest : List ℕ) →
        ReadsDeprecated d n old w bs (Ok tt) new rest ↔ ((x : Bool) × (new ≡ Some x)
        × (field_value_at (number_reading Varint false bool_of) d false n w bs ≡ Ok ((x, true), rest))) }
    ensures refused { (d n : ℕ) (old new : Option Bool) (w : WireType) (bs rest : List ℕ) (e : DecodeError) →
        ReadsDeprecated d n old w bs (Err e) new rest
        ↔ ((new ≡ old) × (field_value_at (number_reading Varint false bool_of) d false n w bs ≡ Err e)) }
{}

/// Which values are read back from their encoding, and how deep it nests. Nothing is left out.
pub fn messages_are_read_back(options: &FieldOptions)
    ensures options { (v : _) → ⟦<FieldOptions as MessageSpec>⟧.normal v ↔ OthersAreKept v }
    ensures carrier { (rs : List (ℕ × FieldData)) → ⟦<Carrier as MessageSpec>⟧.normal rs ↔ AreValid (records_of rs) }
    ensures levels { (v : _) → ⟦<FieldOptions as MessageSpec>⟧.levels v ≡ height v.1 }
    ensures carrier_levels { ⟦<Carrier as MessageSpec>⟧.levels ≡ height }
{
    members_read_back(options);
}

/// The declared field is read by itself, any other is kept behind the others, and what is refused, by the fault of its
/// bytes, changes and spends nothing. It doesn't say what is unread of the declared one then, and where memory runs out.
pub fn fields_are_taken_alone()
    ensures options { TakesOptions ⟦<FieldOptions as MessageFields>⟧.schema.Taken }
    ensures carrier { KeepsFields ⟦<Carrier as MessageFields>⟧.schema.Taken (λ m. m.fields.records) }
{}

/// The constant `PROTO_FQN` of each of these is that name, too. Nothing is left out.
pub fn names_are_these() -> (&'static str, &'static str)
    ensures options { result.0.now ≡ codes "google.protobuf.FieldOptions" }
    ensures carrier { result.1.now ≡ codes "test.Carrier" }
{
    (FieldOptions::PROTO_FQN, Carrier::PROTO_FQN)
}
