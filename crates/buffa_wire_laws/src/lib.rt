//! Laws of the wire: what the definitions of `buffa_bytes` and `buffa_wire` say together, and what the contracts there
//! leave out. Each law is a function with nothing to do, whose contract is the law.
#![tactic(auto)]

pub mod answers;
pub mod grammar;
pub mod records;
pub mod scalars;
pub mod values;
pub mod wire;
