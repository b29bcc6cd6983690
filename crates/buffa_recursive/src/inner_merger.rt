//! What merges the messages inside.

ghost use Rattle.std.specs.Prelude.{◌≡◌, [], ℕ, IsOk};
ghost use Rattle.buffa_wire.specs.Message.{MergesBytes};
ghost use Rattle.buffa_recursive.specs.Fixpoint.{semantics};

use crate::recursive_type::RecursiveType;
use buffa_wire::{Budget, DecodeError};
use std::alloc::Global;

/// What merges the messages inside a message of the same type. A type's [`take`](crate::recursive_fields::RecursiveFields::take) is passed it,
/// and hands it on.
pub trait InnerMerger<M: RecursiveType> {
    /// It may be called at this depth.
    ghost may: { Self → ℕ → Type 0 };

    /// The default message.
    fn blank(&self, alloc: Global) -> M
        ensures { result ≡ (semantics M.COST M.schema M.sound).blank };

    /// Merges all the fields that the bytes are into a message.
    ///
    /// # Errors
    /// Those of [`Message::merge`](buffa_wire::Message::merge).
    fn merge(
        &self,
        alloc: Global,
        message: &mut M,
        bytes: &[u8],
        depth: u32,
        budget: &mut Budget,
    ) -> Result<(), DecodeError>
        requires { may self.now depth }
        ensures merged { let w = semantics M.COST M.schema M.sound in
            MergesBytes w.merged w.cost depth message.old bytes.now budget.old result message.new budget.new }
        ensures free { bytes.now ≡ [] → IsOk result };
}
