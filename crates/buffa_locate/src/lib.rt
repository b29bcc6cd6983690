//! Where bytes were refused: a second pass over them tells the first record that is refused, by the numbers and the names
//! of the fields around it, and by its offset.
//!
//! Reading that succeeds doesn't call this crate, and costs nothing more.
//!
//! ```ignore
//! match locate::<Order>(alloc, bytes, LEVELS, limits)? {
//!     Some(place) => Ok(Some(format!(in alloc; "order{place}")?)),
//!     None => Ok(None),
//! }
//! ```
#![tactic(auto)]

pub mod cuts;
pub mod inside;
pub mod laws;
pub mod place;
pub mod refused;
pub mod search;
pub mod second_pass;

pub use crate::inside::{Holds, Inside, Locate};
pub use crate::place::{Place, Step};
pub use crate::refused::{Refused, first_refused};
pub use crate::search::Search;
pub use crate::second_pass::{find, locate, nothing_inside};
