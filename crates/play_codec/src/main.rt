//! Plays tables of numbers, heads, blocks, pages, requests, replies, text commands and words. Each line has bytes or words and what they are; a case of a leaf has what changes make of it.
//! Its words are files of cases; without words its standard input is one.
#![tactic(auto)]

mod answers;
mod behind;
mod blocks;
mod commands;
mod heads;
mod numbers;
mod pages;
mod slots;
mod tables;
mod telling;
mod texts;
mod told;
mod wire;

use play_text::play_inputs;
use std::io;
use std::process::ExitCode;
use tables::Tables;

fn main(rt: HostRuntime) -> io::Result<ExitCode> {
    play_inputs(&rt, &mut Tables::new(rt.alloc()))
}
