//! What protoc-gen-buffa made of shipment.proto.

pub mod customs;
pub mod extensions;
pub mod handling;
pub mod insurance;
pub mod papers;
pub mod shipment;

pub use customs::Customs;
pub use handling::Handling;
pub use insurance::Insurance;
pub use papers::Papers;
pub use shipment::Shipment;
