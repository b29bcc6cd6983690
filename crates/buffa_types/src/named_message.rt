//! Messages of which calls know the full names.

ghost use Rattle.std.specs.Prelude.{◌≡◌, ℕ, List};

/// A message of which calls know the full name: that of the package, of the messages around it, and its own, with a `.` between
/// each two. So an [`Any`](crate::Any) is packed and unpacked by the type alone.
///
/// The well-known types have it, and the plugin gives it to each message that it writes where it is told `any=all`.
///
/// ```ignore
/// impl NamedMessage for Customs { .. }
/// ```
pub trait NamedMessage {
    /// The full name, as bytes.
    ghost name: { List ℕ };

    /// The full name.
    ///
    /// ```ignore
    /// let name = Duration::full_name(); // "google.protobuf.Duration"
    /// ```
    fn full_name() -> &'static str
        ensures { result.now ≡ name };
}
