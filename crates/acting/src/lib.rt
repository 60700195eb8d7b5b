// What a seat does of itself: what a tick makes it do, and what an offer makes it send.
#![tactic(auto)]

pub mod offering;
pub mod ticking;
