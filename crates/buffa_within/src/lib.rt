//! Extensions that hold messages, read under the limits of a caller.
//!
//! `extension` and `read_extension` of `buffa_ext` read 100 levels deep under a default budget, whatever the message that holds
//! the extension was read with. [`ReadWithin::read_extension_within`] takes the depth and the budget that it is lent:
//!
//! ```ignore
//! let swatch = options.read_extension_within(alloc, &ext, DecodeContext::new(20, &mut *budget))?;
//! ```
#![tactic(auto)]

pub mod within;

pub use within::ReadWithin;
