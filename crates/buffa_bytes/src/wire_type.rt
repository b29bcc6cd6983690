//! How the payload of a field is laid out.

ghost use Rattle.std.specs.Prelude.{◌≡◌};
ghost use Rattle.buffa_bytes.specs.Number.{wire_kind, wire_number};

/// How the payload of a field is laid out: the low three bits of its tag.
///
/// The numbers 6 and 7 name no wire type. Source: the protobuf encoding guide, "Message Structure".
///
/// ```ignore
/// check_wire_type(tag, WireType::LengthDelimited)?; // whose number is 2
/// ```
#[derive(Clone, Copy, Debug, PartialEq, Eq)]
pub enum WireType {
    /// 0: a varint.
    Varint,
    /// 1: eight bytes.
    Fixed64,
    /// 2: a length and so many bytes.
    LengthDelimited,
    /// 3: fields, up to the end tag of the same number.
    StartGroup,
    /// 4: the end of a group; no payload.
    EndGroup,
    /// 5: four bytes.
    Fixed32,
}

impl WireType {
    /// The number in a tag, 0 to 5.
    ///
    /// ```ignore
    /// let number = WireType::Fixed32.number(); // 5
    /// ```
    pub fn number(self) -> u32
        ensures { result ≡ wire_number self }
    {
        match self {
            WireType::Varint => 0,
            WireType::Fixed64 => 1,
            WireType::LengthDelimited => 2,
            WireType::StartGroup => 3,
            WireType::EndGroup => 4,
            WireType::Fixed32 => 5,
        }
    }

    /// The wire type of a number, or `None` from 6 on.
    ///
    /// ```ignore
    /// let wire_type = WireType::from_number(value % 8); // Some(WireType::Varint) for 8
    /// ```
    pub fn from_number(number: u64) -> Option<WireType>
        ensures { result ≡ wire_kind number }
    {
        match number {
            0 => Some(WireType::Varint),
            1 => Some(WireType::Fixed64),
            2 => Some(WireType::LengthDelimited),
            3 => Some(WireType::StartGroup),
            4 => Some(WireType::EndGroup),
            5 => Some(WireType::Fixed32),
            _ => None,
        }
    }
}
