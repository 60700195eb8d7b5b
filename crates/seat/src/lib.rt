// One seat of the log, and the four calls that drive it: hand in, tick, offer and sent.
#![tactic(auto)]

pub mod called;
pub mod items;
pub mod seat;
pub mod slip;
