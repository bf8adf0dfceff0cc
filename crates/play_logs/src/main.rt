//! Plays cases of update logs over files in memory: what rounds leave in a log, what is fed of it, and what a replica's link takes into one. Its words are files of cases;
//! without words its standard input is one.
#![tactic(auto)]

mod failures;
mod logs;
mod looks;
mod opening;
mod rounds;

use opening::Logs;
use play_text::play_inputs;
use std::io;
use std::process::ExitCode;

fn main(rt: HostRuntime) -> io::Result<ExitCode> {
    play_inputs(&rt, &mut Logs::new(rt.alloc()))
}
