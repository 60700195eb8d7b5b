// What one seat keeps, what it asks of itself, how it changes, and how it writes its messages: the parts from which the
// calls of a seat are put together. The definitions of the calls, the model, stand in specs/.
#![tactic(auto)]

pub mod answer;
pub mod call;
pub mod clock;
pub mod notes;
pub mod places;
pub mod seal;
pub mod sending;
pub mod state;
pub mod taking;
pub mod tallies;
