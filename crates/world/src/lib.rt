// A world of seats, each with its own shelf, and the call that replays a list of calls in it.
#![tactic(auto)]

pub mod call;
pub mod desk;
pub mod making;
mod performing;
mod replaying;
mod shelved;
mod working;
pub mod world;
