//! What is replied of a get, and where a request fails.
ghost use Rattle.std.specs.Prelude.{◌≡◌, ◌++◌, Some, OnOk, OnErr, length, codes, decimal};
ghost use Rattle.ty_wire.specs.Prefixes.{IsPrefix};
ghost use Rattle.ty_memc.specs.Answers.{server_error, value_lines};

use itoa::Buffer;
use std::alloc::AllocError;
use tc_base::Blob;

// Adds a size, the value on the next line, and its end.
fn spell_value(value: &[u8], into: &mut Blob) -> Result<(), AllocError>
    ensures ok { OnOk result (into.new ≡ into.old ++ (decimal (length value.now) ++ (codes "\r\n" ++ (value.now ++ codes "\r\n")))) }
    ensures err { OnErr result (IsPrefix into.old into.new) }
{
    let mut buffer = Buffer::new();
    into.append(buffer.format(value.len()).as_bytes())?;
    into.append(b"\r\n")?;
    into.append(value)?;
    into.append(b"\r\n")
}

// Adds the lines of a key and its value, or a front of them where memory ran out.
fn spell_lines(key: &[u8], value: &[u8], into: &mut Blob) -> Result<(), AllocError>
    ensures ok { OnOk result (into.new ≡ into.old ++ value_lines key.now (Some value.now)) }
    ensures err { OnErr result (IsPrefix into.old into.new) }
{
    into.append(b"VALUE ")?;
    into.append(key)?;
    into.append(b" 0 ")?;
    spell_value(value, into)
}

/// Adds what a get replies of a key and its value. An `Err` changes nothing.
pub fn write_value(key: &[u8], value: &[u8], into: &mut Blob) -> Result<(), AllocError>
    ensures ok { OnOk result (into.new ≡ into.old ++ value_lines key.now (Some value.now)) }
    ensures err { OnErr result (into.new ≡ into.old) }
{
    let before = into.len();
    let done = spell_lines(key, value, into);
    if done.is_err() {
        into.truncate(before);
    }
    done
}

/// Adds the reply where a request fails, or a reply would be too long. An `Err` changes nothing.
pub fn write_error(quiet: bool, into: &mut Blob) -> Result<(), AllocError>
    ensures ok { OnOk result (into.new ≡ into.old ++ server_error quiet) }
    ensures err { OnErr result (into.new ≡ into.old) }
{
    if quiet {
        return Ok(());
    }
    into.append(b"SERVER_ERROR\r\n")
}
