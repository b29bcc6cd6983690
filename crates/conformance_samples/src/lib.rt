//! The words of samples; and the calls of rows on payloads by themselves, which are read into a value, and written.
#![tactic(auto)]

mod alone;
mod words;

pub use crate::alone::{OnCodec, Read, Spelled, payload, payloads};

/// The words of samples.
pub struct Samples;
