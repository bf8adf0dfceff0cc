//! Files of cases, played.

use crate::names::Names;
use crate::playing::{Player, play_cases};
use crate::reports::Report;
use std::env;
use std::fs::Files;
use std::io::{self, Read};
use std::process::ExitCode;
use std::rt::Env;

// Plays the cases of a text, and prints what came of them behind its name.
fn play_one<R: Print + AllocGlobal, P: Player>(
    rt: &R,
    player: &mut P,
    names: &mut Names,
    name: &str,
    text: &str,
) -> io::Result<bool> {
    let mut report = Report::new(rt.alloc());
    play_cases(rt.alloc(), player, names, text, &mut report)?;
    print!(rt; "{name}{}", report.text()?.as_str())?;
    Ok(report.is_well())
}

// Plays the cases of the standard input.
fn play_input<R: Input + Print + AllocGlobal, P: Player>(
    rt: &R,
    player: &mut P,
) -> io::Result<bool> {
    let mut text = String::new(rt.alloc());
    rt.reader().read_to_string(&mut text)?;
    play_one(rt, player, &mut Names::new(rt.alloc()), "", text.as_str())
}

/// Plays the files of cases that the program's words name, each with the names of those before; without words its standard input. Prints what came of each, and answers 1
/// where a case failed.
pub fn play_inputs<R: Files + Env + Input + Print + AllocGlobal, P: Player>(
    rt: &R,
    player: &mut P,
) -> io::Result<ExitCode> {
    let words: Vec<String> = env::args(rt)?.skip(1).collect(rt.alloc())?;
    if words.is_empty() {
        return Ok(code_of(play_input(rt, player)?));
    }
    let mut names = Names::new(rt.alloc());
    let mut all = true;
    for word in words.iter() {
        let text = std::fs::read_to_string(rt, word.as_str())?;
        let name = format!(in rt.alloc(); "{}: ", word.as_str())?;
        all = play_one(rt, player, &mut names, name.as_str(), text.as_str())? && all;
    }
    Ok(code_of(all))
}

fn code_of(is_well: bool) -> ExitCode {
    if is_well {
        ExitCode::SUCCESS
    } else {
        ExitCode::from(1)
    }
}
