// Cases of shelves, with both kinds of content, as tests.
#![tactic(auto)]

#[cfg(test)]
mod cases;
