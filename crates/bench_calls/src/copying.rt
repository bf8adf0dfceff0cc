//! A database in the files of a folder, copied: what `bench/copy` times.
ghost use Rattle.std.specs.Prelude.{◌≡◌, true};

use anyhow::{Error, anyhow};
use tc_base::{FILE_MOST, is_label};
use tc_io::Volume;
use tc_space::Space;
use tc_undo::Undo;

/// Copies it under a label.
pub fn copy<V: Volume + Drop>(vol: V, words: &[String]) -> Result<(), Error>
    requires { V.bound vol ≡ true }
{
    let [label] = words else {
        return Err(anyhow!("copy NAME LABEL"));
    };
    if !is_label(label.as_bytes()) {
        return Err(anyhow!("no label"));
    }
    let Ok(mut database) = Undo::open(vol, FILE_MOST) else {
        return Err(anyhow!("the database can't be opened"));
    };
    match database.copy(label.as_bytes()) {
        Ok(()) => Ok(()),
        Err(_) => Err(anyhow!("no copy")),
    }
}
