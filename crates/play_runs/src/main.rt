//! Plays scripts of whole runs over a volume, a wire and sinks in memory, and compares what comes of each with what the script says.
//! Its words are files of cases; without words its standard input is one. The words `refused one` and `refused two` play what
//! `tests/refusals` runs with an allocation refused.
#![tactic(auto)]

mod judging;
mod outcome;
mod plan;
mod refused;
mod runs;
mod transcript;
mod trials;

use play_text::play_inputs;
use refused::{UNMADE, play_refused};
use runs::Runs;
use std::io::ErrorKind;
use std::process::ExitCode;
use std::{env, io};

// The program's words.
fn words_of(rt: &HostRuntime) -> io::Result<Vec<String>> {
    Ok(env::args(rt)?.skip(1).collect(rt.alloc())?)
}

fn main(rt: HostRuntime) -> io::Result<ExitCode> {
    let words = match words_of(&rt) {
        Ok(words) => words,
        Err(e) if e.kind() == ErrorKind::OutOfMemory => return Ok(ExitCode::from(UNMADE)),
        Err(e) => return Err(e),
    };
    if let Some(status) = play_refused(rt.alloc(), &words) {
        return Ok(ExitCode::from(status));
    }
    let mut runs = Runs::new(rt.alloc())?;
    play_inputs(&rt, &mut runs)
}
