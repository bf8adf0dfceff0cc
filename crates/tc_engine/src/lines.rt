//! Lines of an inspection.
ghost use Rattle.std.specs.Prelude.{◌≡◌, ◌++◌, OnOk};
ghost use Rattle.ty_wire.specs.Prefixes.{IsPrefix};
ghost use Rattle.tc_engine.specs.Lines.{line};

use itoa::Buffer;
use std::alloc::AllocError;
use tc_base::Blob;

/// Adds a line of a name and a number. On an `Err` some more bytes may stand behind the old ones.
pub fn add_line(name: &[u8], n: u64, into: &mut Blob) -> Result<(), AllocError>
    ensures added { OnOk result (into.new ≡ into.old ++ line name.now n) }
    ensures front { IsPrefix into.old into.new }
{
    let mut buffer = Buffer::new();
    into.append(name)?;
    into.append(buffer.format(n).as_bytes())?;
    into.push(b'\n')?;
    Ok(())
}
