//! What reading may still spend: the unknown fields left, and the units of element memory left.

ghost use Rattle.std.specs.Prelude.{◌≡◌, ◌+◌, ◌<◌, IfErr, OnErr, OnOk};
ghost use Rattle.buffa_bytes.specs.declared.error.DecodeError.TheVariants as error;

use buffa_bytes::DecodeError;
use std::marker::Model;

/// The unknown fields left that a message is read with where nothing else is said.
///
/// ```ignore
/// let fresh = Budget::new(DEFAULT_UNKNOWN_FIELD_LIMIT);
/// ```
pub const DEFAULT_UNKNOWN_FIELD_LIMIT: usize = 1_000_000;

/// The units of element memory that a message is read with where nothing else is said.
///
/// ```ignore
/// let is_default = budget.memory_left() == DEFAULT_ELEMENT_MEMORY_LIMIT; // of Budget::new(0)
/// ```
pub const DEFAULT_ELEMENT_MEMORY_LIMIT: usize = 268_435_456;

/// What reading may still spend.
///
/// Of the unknown fields left one is spent for each unknown field that is kept, nested ones too, for each map
/// entry that is kept whole, and for each MessageSet Item; of the element memory left, for each map entry the
/// units that its two codecs cost, and for each message of a repeated field those that its type costs. A refused reading
/// has spent no more than what it read costs; how much of that, its own contract says or leaves open.
///
/// ```ignore
/// let mut budget = Budget::new(DEFAULT_UNKNOWN_FIELD_LIMIT);
/// let ctx = DecodeContext::new(RECURSION_LIMIT, &mut budget);
/// ```
#[derive(Drop)]
pub struct Budget {
    unknown: usize,
    memory: usize,
}

impl Model for Budget {
    ghost use Rattle.buffa_wire.specs.BudgetLeft.{BudgetLeft};

    ghost Value = { BudgetLeft };

    ghost view = { λ b. record { unknown = b.unknown; memory = b.memory } };
}

impl Budget {
    /// A budget with `unknown` unknown fields left and [`DEFAULT_ELEMENT_MEMORY_LIMIT`] units of element
    /// memory.
    ///
    /// ```ignore
    /// let mut budget = Budget::new(2);
    /// ```
    pub fn new(unknown: usize) -> Budget
        ensures unknown { result.unknown ≡ unknown }
        ensures memory { result.memory ≡ DEFAULT_ELEMENT_MEMORY_LIMIT }
    {
        Budget {
            unknown,
            memory: DEFAULT_ELEMENT_MEMORY_LIMIT,
        }
    }

    /// The same unknown fields left, and `memory` units of element memory.
    ///
    /// ```ignore
    /// let mut budget = Budget::new(1_000).with_element_memory(1_000_000);
    /// ```
    pub fn with_element_memory(self, memory: usize) -> Budget
        ensures { result ≡ record { unknown = self.unknown; memory = memory } }
    {
        Budget {
            unknown: self.unknown,
            memory,
        }
    }

    /// Spends one of the unknown fields left.
    ///
    /// # Errors
    /// [`DecodeError::UnknownFieldLimitExceeded`] where none is left; nothing is spent then. It takes no
    /// memory.
    ///
    /// ```ignore
    /// budget.take_unknown()?;
    /// ```
    pub fn take_unknown(&mut self) -> Result<(), DecodeError>
        ensures ok { OnOk result ((self.new.unknown + 1 ≡ self.old.unknown) × (self.new.memory ≡ self.old.memory)) }
        ensures err { OnErr result ((self.old.unknown ≡ 0) × (self.new ≡ self.old)) }
        ensures which { IfErr result (λ e. e ≡ error.UnknownFieldLimitExceeded) }
    {
        if self.unknown == 0 {
            return Err(DecodeError::UnknownFieldLimitExceeded);
        }
        self.unknown -= 1;
        Ok(())
    }

    /// Spends `n` units of element memory.
    ///
    /// # Errors
    /// [`DecodeError::ElementMemoryLimitExceeded`] where fewer are left; nothing is spent then. It takes
    /// no memory.
    ///
    /// ```ignore
    /// budget.take_memory(cost)?;
    /// ```
    pub fn take_memory(&mut self, n: usize) -> Result<(), DecodeError>
        ensures ok { OnOk result ((self.new.memory + n ≡ self.old.memory) × (self.new.unknown ≡ self.old.unknown)) }
        ensures err { OnErr result ((self.old.memory < n) × (self.new ≡ self.old)) }
        ensures which { IfErr result (λ e. e ≡ error.ElementMemoryLimitExceeded) }
    {
        if self.memory < n {
            return Err(DecodeError::ElementMemoryLimitExceeded);
        }
        self.memory -= n;
        Ok(())
    }

    /// The unknown fields that are left.
    ///
    /// ```ignore
    /// let unknown = budget.unknown_left();
    /// ```
    pub fn unknown_left(&self) -> usize
        ensures { result ≡ self.now.unknown }
    {
        self.unknown
    }

    /// The units of element memory that are left.
    ///
    /// ```ignore
    /// let units = budget.memory_left();
    /// ```
    pub fn memory_left(&self) -> usize
        ensures { result ≡ self.now.memory }
    {
        self.memory
    }
}
