// Calls that are replayed at the desks of a world, as tests.
#![tactic(auto)]

#[cfg(test)]
mod cells;
#[cfg(test)]
mod house;
#[cfg(test)]
mod scenes;
