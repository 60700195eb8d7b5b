// Blocks and their ranks, the number of seats, sets of seats, and rows of seals.
#![tactic(auto)]

pub mod block;
pub mod masks;
pub mod ranks;
pub mod rows;
pub mod seats;
