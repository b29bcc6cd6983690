//! What a type says of the messages in its messages.

ghost use Rattle.std.specs.Prelude.{◌≡◌, ◌<◌, ◌≤◌, IfOk, IfSome, false, true};
ghost use Rattle.buffa_locate.specs.declared.inside.Holds.TheVariants as holds;
ghost use Rattle.buffa_locate.specs.Places.{ExtendsIfFound};

use crate::place::Step;
use crate::search::Search;
use buffa_wire::Message;
use std::alloc::{AllocError, Global};

/// How a field holds a message.
///
/// ```ignore
/// (Holds::Group, WireType::StartGroup) => Ok(Some((from, self.end))),
/// ```
#[derive(Clone, Copy, Debug, PartialEq, Eq)]
pub enum Holds {
    /// Behind its length.
    Message,
    /// As a group.
    Group,
    /// As the value of a map's entry.
    Value,
}

/// What is known of the message that a field holds.
///
/// ```ignore
/// let inside = M::inside(tag.field_number());
/// ```
#[derive(Clone, Copy, Debug, PartialEq, Eq)]
pub struct Inside {
    /// How it is held.
    pub holds: Holds,
    /// Whether it is one of many: an element of a list, or the value of a map's entry.
    pub listed: bool,
    /// Whether it is of the type of the message that holds it.
    pub own: bool,
    /// The units of element memory that the field costs for the message, besides what is in it.
    pub units: usize,
    /// Those that it costs for the key of an entry.
    pub key: usize,
}

impl Inside {
    /// One message behind its length: in a field that is no list, or in a case of a oneof.
    ///
    /// ```ignore
    /// 4 => Some(buffa_locate::Inside::one()),
    /// ```
    pub fn one() -> Inside
        ensures { result ≡ record { holds = holds.Message; listed = false; own = false; units = 0; key = 0 } }
    {
        Inside {
            holds: Holds::Message,
            listed: false,
            own: false,
            units: 0,
            key: 0,
        }
    }

    /// One message as a group.
    ///
    /// ```ignore
    /// 3 => Some(buffa_locate::Inside::group()),
    /// ```
    pub fn group() -> Inside
        ensures { result ≡ record { holds = holds.Group; listed = false; own = false; units = 0; key = 0 } }
    {
        Inside {
            holds: Holds::Group,
            listed: false,
            own: false,
            units: 0,
            key: 0,
        }
    }

    /// An element of a list of messages.
    ///
    /// ```ignore
    /// 3 => Some(buffa_locate::Inside::element::<Line>()),
    /// ```
    pub fn element<N: Message>() -> Inside
        ensures { result ≡ record { holds = holds.Message; listed = true; own = false; units = N.COST; key = 0 } }
    {
        Inside {
            holds: Holds::Message,
            listed: true,
            own: false,
            units: N::COST,
            key: 0,
        }
    }

    /// An element of a list of groups.
    ///
    /// ```ignore
    /// 4 => Some(buffa_locate::Inside::group_element::<Load>()),
    /// ```
    pub fn group_element<N: Message>() -> Inside
        ensures { result ≡ record { holds = holds.Group; listed = true; own = false; units = N.COST; key = 0 } }
    {
        Inside {
            holds: Holds::Group,
            listed: true,
            own: false,
            units: N::COST,
            key: 0,
        }
    }

    /// The value of an entry, whose key costs so many units.
    ///
    /// ```ignore
    /// let held = buffa_locate::Inside::value::<Line>(key);
    /// ```
    pub fn value<N: Message>(key: usize) -> Inside
        ensures { result ≡ record { holds = holds.Value; listed = true; own = false; units = N.COST; key = key } }
    {
        Inside {
            holds: Holds::Value,
            listed: true,
            own: false,
            units: N::COST,
            key,
        }
    }

    /// One message in a box, of the type of the message that holds it.
    ///
    /// ```ignore
    /// 2 => Some(buffa_locate::Inside::boxed::<Failure>()),
    /// ```
    pub fn boxed<N: Message>() -> Inside
        ensures { result ≡ record { holds = holds.Message; listed = false; own = true; units = N.COST; key = 0 } }
    {
        Inside {
            holds: Holds::Message,
            listed: false,
            own: true,
            units: N::COST,
            key: 0,
        }
    }

    /// An element of a list of messages, of the type of the message that holds it.
    ///
    /// ```ignore
    /// 2 => Some(buffa_locate::Inside::own_element::<Place>()),
    /// ```
    pub fn own_element<N: Message>() -> Inside
        ensures { result ≡ record { holds = holds.Message; listed = true; own = true; units = N.COST; key = 0 } }
    {
        Inside {
            holds: Holds::Message,
            listed: true,
            own: true,
            units: N::COST,
            key: 0,
        }
    }

    /// The value of an entry, whose key costs so many units; it is of the type of the message that holds the entry.
    ///
    /// ```ignore
    /// let held = buffa_locate::Inside::own_value::<Settings>(key);
    /// ```
    pub fn own_value<N: Message>(key: usize) -> Inside
        ensures { result ≡ record { holds = holds.Value; listed = true; own = true; units = N.COST; key = key } }
    {
        Inside {
            holds: Holds::Value,
            listed: true,
            own: true,
            units: N::COST,
            key,
        }
    }
}

/// A message whose type says which of its fields hold messages, and of which type.
///
/// ```ignore
/// fn inside(number: u32) -> Option<Inside>;
/// ```
pub trait Locate {
    /// The name in the `.proto` of the field that has this number; none where the message has no member for it.
    ///
    /// ```ignore
    /// let name = M::name_of(number);
    /// ```
    fn name_of(number: u32) -> Option<&'static str>;

    /// What is known of the message that the field of a number holds, or none where it holds none.
    ///
    /// ```ignore
    /// let inside = M::inside(tag.field_number());
    /// ```
    fn inside(number: u32) -> Option<Inside>;

    /// The offset of the first refused record in the message that the field of a number holds, which is of another type,
    /// if it is refused for the fault that is searched; the steps to it go behind the path. Where none is found the path stays
    /// as it was.
    ///
    /// # Errors
    /// Where memory runs out. The contract leaves the path open then.
    ///
    /// ```ignore
    /// M::find_inside(tag.field_number(), alloc, inner, path)
    /// ```
    fn find_inside(
        number: u32,
        alloc: Global,
        search: Search<'_>,
        path: &mut Vec<Step>,
    ) -> Result<Option<usize>, AllocError>
        ensures within { IfOk result (λ found. IfSome found (λ at. (search.entry.start ≤ at) × (at < search.entry.end))) }
        ensures path { IfOk result (λ found. ExtendsIfFound found path.old.items path.new.items) };
}
