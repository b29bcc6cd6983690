//! Frames: messages one after the other, each behind its length, as they stand in logs and on sockets.
#![tactic(auto)]

pub mod at_front;
pub mod delimited;
pub mod error;
pub mod laws;
pub mod reader;
pub mod whole;

pub use at_front::{Front, frame_at_front};
pub use delimited::Delimited;
pub use error::{FrameError, FrameFault};
pub use reader::FrameReader;
