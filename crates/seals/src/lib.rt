// Seal checks: which seals stand under which statements of which seats.
#![tactic(auto)]

pub mod asked;
pub mod check;
pub mod house;
pub mod roll;
pub mod siphash;
