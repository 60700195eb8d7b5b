// The messages between seats: their bytes, read and written.
#![tactic(auto)]

pub mod asking;
pub(crate) mod cursor;
pub mod laws;
pub mod maker;
pub mod message;
pub mod numbers;
pub mod reader;
pub mod writer;
