// What each kind of message does to a seat, once it was read and its seals were checked.
#![tactic(auto)]

mod certified;
mod counting;
pub mod handling;
mod proposing;
