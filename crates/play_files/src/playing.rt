//! The lines of a case, played one by one.

use play_text::{Line, Script, Wrong};

/// What a case is of, on which its lines are played.
pub trait Object {
    fn play(&mut self, what: &str, line: &mut Line) -> Result<(), Wrong>;
}

/// Plays all lines that are left.
pub fn play_lines<O: Object>(object: &mut O, script: &mut Script<'_>) -> Result<(), Wrong> {
    for _ in 0..script.len() {
        let Some((what, mut line)) = script.next_line()? else {
            return Ok(());
        };
        object.play(what, &mut line)?;
        script.end(line)?;
    }
    Ok(())
}
