// Examples that are run: published vectors, and what each part of the product says to inputs good and bad.
#![tactic(auto)]

#[cfg(test)]
mod leaders;
#[cfg(test)]
mod sealing;
#[cfg(test)]
mod vectors;
