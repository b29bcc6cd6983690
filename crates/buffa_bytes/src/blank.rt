//! What a value means, and the value that a field starts with.

ghost use Rattle.std.specs.Prelude.{◌≡◌, [], false, pos, string_bytes, vec_capacity};

use bytes::Bytes;
use std::alloc::Global;

/// A type with a default: 0 for integers, `false`, the empty text, the empty bytes.
///
/// Contracts see a value by its *meaning*: a number by itself, a text by its bytes. Two values that mean
/// the same may differ in capacity or layout, and no contract speaks of that.
///
/// ```ignore
/// let mut message: Inventory = Blank::blank(alloc);
/// ```
pub trait Blank: Drop {
    /// What two values that mean the same have in common: of a number the number itself. It is a type for contracts, of
    /// which no value is made; `[u8; 0]` stands for a list of bytes.
    ///
    /// ```ignore
    /// type Meaning = [u8; 0];
    /// ```
    type Meaning;

    /// What a value means.
    ghost meaning: { Self → Self.Meaning };

    /// What the default means.
    ghost blank_is: { Self.Meaning };

    /// The default. It takes no memory.
    ///
    /// ```ignore
    /// let text = String::blank(alloc); // ""
    /// ```
    fn blank(alloc: Global) -> Self
        ensures { meaning result ≡ blank_is };
}

impl Blank for i32 {
    type Meaning = i32;

    ghost meaning = { λ n. n };

    ghost blank_is = { pos 0 };

    fn blank(_alloc: Global) -> i32 {
        0
    }
}

impl Blank for i64 {
    type Meaning = i64;

    ghost meaning = { λ n. n };

    ghost blank_is = { pos 0 };

    fn blank(_alloc: Global) -> i64 {
        0
    }
}

impl Blank for u32 {
    type Meaning = u32;

    ghost meaning = { λ n. n };

    ghost blank_is = { 0 };

    fn blank(_alloc: Global) -> u32 {
        0
    }
}

impl Blank for u64 {
    type Meaning = u64;

    ghost meaning = { λ n. n };

    ghost blank_is = { 0 };

    fn blank(_alloc: Global) -> u64 {
        0
    }
}

impl Blank for bool {
    type Meaning = bool;

    ghost meaning = { λ b. b };

    ghost blank_is = { false };

    fn blank(_alloc: Global) -> bool {
        false
    }
}

impl Blank for String {
    type Meaning = [u8; 0];

    ghost meaning = { string_bytes };

    ghost blank_is = { [] };

    fn blank(alloc: Global) -> String {
        String::new(alloc)
    }
}

impl Blank for Vec<u8> {
    type Meaning = [u8; 0];

    ghost meaning = { λ v. v.items };

    ghost blank_is = { [] };

    fn blank(alloc: Global) -> Vec<u8>
        ensures meaning { result.items ≡ [] }
        ensures room { vec_capacity result ≡ 0 }
    {
        Vec::new(alloc)
    }
}

impl Blank for Bytes {
    type Meaning = [u8; 0];

    ghost meaning = { λ b. b };

    ghost blank_is = { [] };

    fn blank(_alloc: Global) -> Bytes {
        Bytes::new()
    }
}
