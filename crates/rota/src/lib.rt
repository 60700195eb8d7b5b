// Who leads each view of a log, and how many seats a log may have.
#![tactic(auto)]

pub mod leaders;
pub mod posted;
pub mod robin;
