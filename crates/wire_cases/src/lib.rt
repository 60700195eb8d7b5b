// Messages that are read, opened and written: whole, cut at every byte, with every number damaged, and with seals that
// are no seals.
#![tactic(auto)]

#[cfg(test)]
mod damage;
#[cfg(test)]
mod samples;
#[cfg(test)]
mod sealed;
#[cfg(test)]
mod written;
