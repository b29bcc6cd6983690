//! How deep reading may still go, and the budget that it spends.

ghost use Rattle.std.specs.Prelude.{◌≡◌, ◌+◌, ◌<◌, IfErr, IfOk, OnErr, OnOk};
ghost use Rattle.buffa_bytes.specs.declared.error.DecodeError.TheVariants as error;

use crate::budget::Budget;
use buffa_bytes::DecodeError;

/// How deep a message is read where nothing else is said: groups and messages nested 100 deep.
///
/// ```ignore
/// let ctx = DecodeContext::new(RECURSION_LIMIT, &mut budget);
/// ```
pub const RECURSION_LIMIT: u32 = 100;

/// How deep reading may still go, and the one budget that all of it spends.
///
/// It is passed by value. A function that goes on reading passes a new one, which lends its own budget anew; so what
/// the function that is called spends, is spent for both.
///
/// ```ignore
/// let lent = DecodeContext { depth: ctx.depth, budget: &mut *ctx.budget };
/// merge_entry::<Str, Int32, _, _>(alloc, &mut self.counts, buf, lent)?;
/// ```
#[derive(Drop)]
pub struct DecodeContext<'a> {
    /// How many levels of groups and messages may still open.
    pub depth: u32,
    /// What may still be spent.
    pub budget: &'a mut Budget,
}

impl<'a> DecodeContext<'a> {
    /// A context of this depth over the lent budget.
    ///
    /// ```ignore
    /// let ctx = DecodeContext::new(RECURSION_LIMIT, &mut budget);
    /// ```
    pub fn new(depth: u32, budget: &'a mut Budget) -> DecodeContext<'a>
        ensures depth { result.depth ≡ depth }
        ensures budget { result.budget.now ≡ budget.old }
        ensures same { result.budget.ghost_name ≡ budget.entry.ghost_name }
    {
        DecodeContext { depth, budget }
    }

    /// How many levels of groups and messages may still open.
    ///
    /// ```ignore
    /// let depth = inner.depth();
    /// ```
    pub fn depth(&self) -> u32
        ensures { result ≡ self.now.depth }
    {
        self.depth
    }

    /// The context one level down.
    ///
    /// # Errors
    /// [`DecodeError::RecursionLimitExceeded`] at depth 0. It takes no memory. The contract leaves the budget open then, since it moves
    /// into the context that is answered.
    ///
    /// ```ignore
    /// let inner = ctx.descend()?;
    /// ```
    pub fn descend(self) -> Result<DecodeContext<'a>, DecodeError>
        ensures ok { IfOk result (λ c. (c.depth + 1 ≡ self.entry.depth)
            × (c.budget.now ≡ self.entry.budget.now)
            × (c.budget.ghost_name ≡ self.entry.budget.ghost_name)) }
        ensures err { OnErr result (self.entry.depth ≡ 0) }
        ensures which { IfErr result (λ e. e ≡ error.RecursionLimitExceeded) }
    {
        if self.depth == 0 {
            return Err(DecodeError::RecursionLimitExceeded);
        }
        Ok(DecodeContext {
            depth: self.depth - 1,
            budget: self.budget,
        })
    }

    /// Spends one of the unknown fields left.
    ///
    /// # Errors
    /// [`DecodeError::UnknownFieldLimitExceeded`] where none is left; nothing is spent then. It takes no
    /// memory.
    ///
    /// ```ignore
    /// ctx.register_unknown_field()?;
    /// ```
    pub fn register_unknown_field(&mut self) -> Result<(), DecodeError>
        ensures depth { self.new.depth ≡ self.old.depth }
        ensures same { self.new.budget.ghost_name ≡ self.old.budget.ghost_name }
        ensures ok { OnOk result ((self.new.budget.now.unknown + 1 ≡ self.old.budget.now.unknown)
            × (self.new.budget.now.memory ≡ self.old.budget.now.memory)) }
        ensures err { OnErr result ((self.old.budget.now.unknown ≡ 0) × (self.new.budget.now ≡ self.old.budget.now)) }
        ensures which { IfErr result (λ e. e ≡ error.UnknownFieldLimitExceeded) }
    {
        let budget = &mut *self.budget;
        budget.take_unknown()
    }

    /// Spends `n` units of element memory.
    ///
    /// # Errors
    /// [`DecodeError::ElementMemoryLimitExceeded`] where fewer are left; nothing is spent then. It takes
    /// no memory.
    ///
    /// ```ignore
    /// ctx.register_element_memory(28)?;
    /// ```
    pub fn register_element_memory(&mut self, n: usize) -> Result<(), DecodeError>
        ensures depth { self.new.depth ≡ self.old.depth }
        ensures same { self.new.budget.ghost_name ≡ self.old.budget.ghost_name }
        ensures ok { OnOk result ((self.new.budget.now.memory + n ≡ self.old.budget.now.memory)
            × (self.new.budget.now.unknown ≡ self.old.budget.now.unknown)) }
        ensures err { OnErr result ((self.old.budget.now.memory < n) × (self.new.budget.now ≡ self.old.budget.now)) }
        ensures which { IfErr result (λ e. e ≡ error.ElementMemoryLimitExceeded) }
    {
        let budget = &mut *self.budget;
        budget.take_memory(n)
    }
}
