// A day in a podcast studio: what the log's parts do, in plain sentences.
#![tactic(auto)]

mod contents;
mod hex;
mod leading;
mod proposing;
mod sealing;
mod shelving;
mod tell;

use std::io;

fn main(rt: HostRuntime) -> io::Result<()> {
    contents::edit(&rt)?;
    contents::mark(&rt)?;
    contents::bad_edits(&rt)?;
    contents::bad_marks(&rt)?;
    contents::bad_bytes(&rt)?;
    leading::in_turn(&rt)?;
    leading::as_posted(&rt)?;
    leading::out_of_limits(&rt)?;
    sealing::blame(&rt)?;
    proposing::proposal(&rt)?;
    shelving::two_cells(&rt)
}
