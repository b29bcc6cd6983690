//! Whether all that is required is there, in messages that hold themselves.

ghost use Rattle.std.specs.Prelude.{◌≡◌, ◌<◌, ℕ};
ghost use Rattle.std.specs.Option.{option_map};
ghost use Rattle.buffa_map.specs.Pairs.{means};
ghost use Rattle.buffa_recursive.specs.ConditionsInside.{AskingOf};
ghost use Rattle.buffa_recursive.specs.RecursiveSchema.{RecursiveSchema};

use buffa_wire::Blank;
use std::collections::BTreeMap;

/// What is asked of messages that hold themselves. It has no calls, so that those of the members may rest on it.
///
/// ```ignore
/// impl SelfAsked for Task { .. }
/// ```
pub trait SelfAsked {
    /// The message, as `RecursiveType` has it.
    ghost tree: { RecursiveSchema Self };

    /// What is asked of a message with those of its type in it, and of those in a member.
    ghost asking: { AskingOf tree };
}

/// What asks the messages inside a message of the same type. A type's [`is_initialized_by`](SelfRequired::is_initialized_by) is
/// passed it, and hands it on.
pub trait SelfAsker<M: SelfAsked> {
    /// It may ask messages that are lower than this.
    ghost Reaches: { ℕ → Self → Type 0 };

    /// Whether all that is required is there, in a message and in those in it.
    fn ask(&self, message: &M) -> bool
        requires { (h : ℕ) × (M.tree.height message.now < h) × Reaches h self.now }
        ensures { result ≡ M.asking.whole message.now };
}

/// A message that holds itself, and in which something is required, of itself or of messages of other types in it.
///
/// ```ignore
/// impl SelfRequired for Task { .. }
/// ```
pub trait SelfRequired: SelfAsked {
    /// Whether all that is required is there. The messages in a member of its own type are asked by `inner`.
    ///
    /// ```ignore
    /// self.title.is_some()
    ///     & list_initialized(&self.parts, inner)
    /// ```
    fn is_initialized_by<A: SelfAsker<Self>>(&self, inner: &A) -> bool
        requires { A.Reaches (Self.tree.height self.now) inner.now }
        ensures { result ≡ Self.asking.whole self.now };
}

/// Whether all that is required is there, in each message of a list.
///
/// ```ignore
/// list_initialized(&self.parts, inner)
/// ```
#[tactic(auto, using(crate::proofs::InitializedLemmas::listed_lacks))]
pub fn list_initialized<M: SelfAsked, A: SelfAsker<M>>(list: &Vec<M>, inner: &A) -> bool
    requires { (h : ℕ) × (M.tree.children_height (M.tree.of_list list.now.items) < h) × A.Reaches h inner.now }
    ensures { result ≡ M.asking.listed (M.tree.of_list list.now.items) }
{
    for message in list {
        if !inner.ask(message) {
            return false;
        }
    }
    true
}

/// Whether all that is required is there, in a message that may be there: so it is where none is.
///
/// ```ignore
/// one_initialized(&self.before, inner)
/// ```
pub fn one_initialized<M: SelfAsked, A: SelfAsker<M>>(one: &Option<Box<M>>, inner: &A) -> bool
    requires { (h : ℕ) × (M.tree.maybe_height (M.tree.of_option (option_map (λ b. b.value) one.now)) < h)
        × A.Reaches h inner.now }
    ensures { result ≡ M.asking.there (M.tree.of_option (option_map (λ b. b.value) one.now)) }
{
    match one {
        Some(message) => inner.ask(&**message),
        None => true,
    }
}

/// Whether all that is required is there, in each message of a map.
///
/// ```ignore
/// map_initialized(&self.by_day, inner)
/// ```
#[tactic(auto, using(crate::proofs::InitializedLemmas::mapped_all))]
pub fn map_initialized<K: Blank + Ord, M: SelfAsked, A: SelfAsker<M>>(
    map: &BTreeMap<K, M>,
    inner: &A,
) -> bool
    requires { (h : ℕ) × (M.tree.pairs_height (M.tree.of_pairs (means K.meaning (λ m. m) map.now.entries)) < h)
        × A.Reaches h inner.now }
    ensures { result ≡ M.asking.mapped (M.tree.of_pairs (means K.meaning (λ m. m) map.now.entries)) }
{
    for (_, message) in map {
        if !inner.ask(message) {
            return false;
        }
    }
    true
}

// A function as what asks the messages inside.
#[derive(Drop)]
struct AskerBy<F> {
    ask: F,
}

impl<M: SelfAsked, F: Fn(&M) -> bool> SelfAsker<M> for AskerBy<F> {
    ghost Reaches = { λ h s. ((x : _) → M.tree.height x.now < h → F.pre s.ask x)
        × ((x : _) (r : _) → M.tree.height x.now < h → F.post s.ask x r → r ≡ M.asking.whole x.now) };

    fn ask(&self, message: &M) -> bool {
        (self.ask)(message)
    }
}

// Whether all that is required is there, by a function that asks a message inside.
fn initialized_by<M: SelfRequired, F: Fn(&M) -> bool>(message: &M, ask: F) -> bool
    requires may { (x : _) → M.tree.height x.now < M.tree.height message.now → F.pre ask x }
    requires tells { (x : _) (r : _) → M.tree.height x.now < M.tree.height message.now → F.post ask x r →
        r ≡ M.asking.whole x.now }
    ensures { result ≡ M.asking.whole message.now }
{
    message.is_initialized_by(&AskerBy { ask })
}

/// Whether all that is required is there, in a message and in each message of its type in it, at any depth.
///
/// ```ignore
/// tree_initialized(self)
/// ```
pub fn tree_initialized<M: SelfRequired>(message: &M) -> bool
    ensures { result ≡ M.asking.whole message.now }
{
    initialized_by(
        message,
        |child: &M| -> bool
            ensures { result ≡ M.asking.whole child.now }
        { tree_initialized(child) },
    )
}
