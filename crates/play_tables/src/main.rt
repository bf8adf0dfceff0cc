//! Plays tables in memory, which count the rows that are got. A case has rows and indexes that come and go, what keys the indexes have, and what a search asks for, reads and finds;
//! also the tokens of texts, and these each once.
//! Its words are files of cases; without words its standard input is one.
#![tactic(auto)]

mod kept;
mod plans;
mod tables;
mod texts;

use play_text::play_inputs;
use std::io;
use std::process::ExitCode;
use tables::Tables;

fn main(rt: HostRuntime) -> io::Result<ExitCode> {
    play_inputs(&rt, &mut Tables::new(rt.alloc()))
}
