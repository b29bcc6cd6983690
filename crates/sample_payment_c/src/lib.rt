//! Messages of payment.proto for programs in other languages, made by c_library.
#![tactic(auto)]

pub mod exports;
