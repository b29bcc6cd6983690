//! What protoc-gen-buffa made of stock.proto.

pub mod line;
pub mod order;
pub mod place;
pub mod state;
pub mod stock;

pub use line::Line;
pub use order::Order;
pub use place::Place;
pub use state::State;
pub use stock::Stock;
