// The contents of log entries, and the one list of reasons for which any call of the product refuses.
#![tactic(auto)]

pub mod edit;
pub mod kind;
pub mod mark;
pub mod refusal;
