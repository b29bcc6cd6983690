//! What a caller allows bytes that are read.

ghost use Rattle.std.specs.Prelude.{◌≡◌};
ghost use Rattle.buffa_c.specs.Answers.{budget_of};

use buffa_fields::{
    Budget, DEFAULT_ELEMENT_MEMORY_LIMIT, DEFAULT_UNKNOWN_FIELD_LIMIT, MAX_MESSAGE_BYTES,
    RECURSION_LIMIT,
};

/// What a caller allows bytes that are read.
///
/// ```ignore
/// check::<Payment>(alloc, bytes, limits)
/// ```
#[derive(Clone, Copy)]
pub struct Limits {
    /// The most bytes.
    pub longest: usize,
    /// How many groups and messages may nest.
    pub depth: u32,
    /// The most fields that aren't declared, nested ones too.
    pub unknown: usize,
    /// The most units of element memory: what map entries, and messages in lists, cost.
    pub units: usize,
}

/// The limits where nothing else is said: [`MAX_MESSAGE_BYTES`], [`RECURSION_LIMIT`] and a default budget.
///
/// ```ignore
/// check::<Payment>(alloc, bytes, USUAL)
/// ```
pub const USUAL: Limits = Limits {
    longest: MAX_MESSAGE_BYTES as usize,
    depth: RECURSION_LIMIT,
    unknown: DEFAULT_UNKNOWN_FIELD_LIMIT,
    units: DEFAULT_ELEMENT_MEMORY_LIMIT,
};

impl Limits {
    /// What reading may spend.
    ///
    /// ```ignore
    /// M::decode_within(alloc, bytes, limits.depth, limits.budget())
    /// ```
    pub fn budget(self) -> Budget
        ensures { result ≡ budget_of self }
    {
        Budget::new(self.unknown).with_element_memory(self.units)
    }
}
