//! The lines that a run writes to the standard error: of gaps, and how it ended.
ghost use Rattle.std.specs.Prelude.{◌≡◌, OnOk};
ghost use Rattle.tc_io.specs.Causes.{HasCause};
ghost use Rattle.tc_io.specs.Told.{Adds};
ghost use Rattle.tk_top.specs.declared.ends.End.TheVariants.{Done as is_done};
ghost use Rattle.tk_top.specs.Ends.{broken_line, line_of};
ghost use Rattle.tk_top.specs.GapLines.{TellsGap, gap_line};

use crate::ends::End;
use itoa::Buffer;
use tc_base::{Fault, Rule};
use tc_io::Sink;
use ty_rounds::Outcome;

// Which rule of which file is broken.
fn put_broken<E: Sink>(file: u32, rule: Rule, err: &mut E) -> Result<(), Fault>
    ensures ok { OnOk result (Adds (E.taken err.old) (E.taken err.new) (broken_line file rule)) }
    ensures cause { HasCause (E.faults err.old) (E.faults err.new) result }
{
    let mut number = Buffer::new();
    err.put(b"tokyo: broken: file ")?;
    err.put(number.format(file).as_bytes())?;
    err.put(b" rule ")?;
    err.put(&[rule.letter])?;
    err.put(number.format(rule.number).as_bytes())?;
    err.put(b"\n")
}

// Writes the line of a gap: the last timestamp held, and the one that a record followed. It takes no memory.
fn put_gap<E: Sink>(held: u64, follows: u64, err: &mut E) -> Result<(), Fault>
    ensures ok { OnOk result (Adds (E.taken err.old) (E.taken err.new) (gap_line (held, follows))) }
    ensures cause { HasCause (E.faults err.old) (E.faults err.new) result }
{
    let mut number = Buffer::new();
    err.put(b"tokyo: gap: held ")?;
    err.put(number.format(held).as_bytes())?;
    err.put(b", record follows ")?;
    err.put(number.format(follows).as_bytes())?;
    err.put(b"\n")
}

/// Writes the line of a gap, where a turn met one. It is no matter whether it could be written.
pub fn tell_gap<E: Sink>(outcome: Outcome, err: &mut E)
    ensures { TellsGap E.Sink outcome err.old err.new }
{
    match outcome {
        Outcome::Gap { held, follows } => {
            let _ = put_gap(held, follows, err);
        }
        Outcome::Went => {}
        Outcome::Shut => {}
    }
}

/// Writes the line of an end, nothing where it is done. It takes no memory.
pub fn put_line<E: Sink>(end: End, err: &mut E) -> Result<(), Fault>
    ensures ok { OnOk result (Adds (E.taken err.old) (E.taken err.new) (line_of end)) }
    ensures cause { HasCause (E.faults err.old) (E.faults err.new) result }
    ensures silent { end ≡ is_done → err.new ≡ err.old }
{
    match end {
        End::Done => Ok(()),
        End::Words => err.put(b"tokyo: words\n"),
        End::Refused => err.put(b"tokyo: refused\n"),
        End::VolumeFault => err.put(b"tokyo: volume fault\n"),
        End::Broken { file, rule } => put_broken(file, rule, err),
        End::NoMemory => err.put(b"tokyo: no memory\n"),
        End::Full => err.put(b"tokyo: full\n"),
        End::WireFault => err.put(b"tokyo: wire fault\n"),
        End::TurnsSpent => err.put(b"tokyo: turns spent\n"),
    }
}
