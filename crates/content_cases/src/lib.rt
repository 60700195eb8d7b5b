// Cases of contents and refusals at every bound, as tests.
#![tactic(auto)]

#[cfg(test)]
mod edits;
#[cfg(test)]
mod marks;
#[cfg(test)]
mod refusals;
