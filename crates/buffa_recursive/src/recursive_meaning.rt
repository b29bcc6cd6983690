//! Messages that hold themselves, as messages: what they mean, and their default.

ghost use Rattle.std.specs.Prelude.{◌≡◌};

use crate::recursive_type::RecursiveType;
use buffa_wire::{Blank, MessageImpl};

/// A struct that holds its own type, as a message: what it means, and its default.
///
/// ```ignore
/// impl RecursiveMeaning for Outline { .. }
/// ```
pub trait RecursiveMeaning: RecursiveType
    + Blank<Meaning = Self>
    + MessageImpl<Impl = RecursiveFieldByField> {
    /// A message means itself: what contracts see of it is what its members mean.
    ghost means: { (m : Self) → Self.meaning m ≡ m };

    /// The default has the defaults of its members.
    ghost starts: { Self.blank_is ≡ Self.schema.into Self.schema.blank };
}

/// The form of messages that hold themselves. With it a struct of one's own is a message:
///
/// ```ignore
/// impl MessageImpl for Outline {
///     type Impl = RecursiveFieldByField;
/// }
/// ```
pub struct RecursiveFieldByField;
