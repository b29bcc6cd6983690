//! The exports of each message, made of payment.proto by c_library.

pub mod payment;
pub mod transfer;
