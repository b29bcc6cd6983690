//! What a type of messages that hold themselves is.

ghost use Rattle.std.specs.Prelude.{◌<◌, ℕ};
ghost use Rattle.buffa_recursive.specs.RecursiveSchema.{RecursiveSchema};
ghost use Rattle.buffa_recursive.specs.Layers.{IsSound};

/// What a type of messages that hold themselves is: its members. It has no calls, so that those of the members may rest on
/// it.
///
/// ```ignore
/// impl RecursiveType for Outline { .. }
/// ```
pub trait RecursiveType {
    /// The units of element memory that a message costs where it is an element of a list, its own or another one, or the
    /// value of a map: 1 or more.
    ///
    /// ```ignore
    /// const COST: usize = 96;
    /// ```
    const COST: usize;

    ghost COST: { ℕ };

    /// An element has a cost.
    ghost positive: { 0 < COST };

    /// Its members, one after the other, by what is told of the messages inside.
    ghost schema: { RecursiveSchema Self };

    /// Each number is valid for a field, no two members have the same one, and where a member puts records aside, the message
    /// keeps them.
    ghost sound: { IsSound schema };
}
