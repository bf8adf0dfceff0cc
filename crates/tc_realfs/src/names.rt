//! The names of the files of a database.

use std::alloc::{AllocError, Global};
use std::io;
use std::io::ErrorKind;

/// The path of a file by its number: the name itself, and the name with `.undo`, with `.ulog` and with `.idx.00` to `.idx.15`.
pub fn path_of(alloc: Global, name: &str, file: u32) -> Result<String, AllocError> {
    match file {
        0 => format!(in alloc; "{name}"),
        1 => format!(in alloc; "{name}.undo"),
        2 => format!(in alloc; "{name}.ulog"),
        _ => {
            let index = file.saturating_sub(3);
            format!(in alloc; "{name}.idx.{index:02}")
        }
    }
}

/// The folder that a name lies in.
pub fn folder_of(name: &str) -> &str {
    match name.rsplit_once('/') {
        Some((folder, _)) if folder.is_empty() => "/",
        Some((folder, _)) => folder,
        None => ".",
    }
}

/// The name of the copy under a label: the label stands before the ending of the name, as in `h.mon.tch` of `h.tch`. A name without an ending has no copies, since
/// behind it a label could name one of its own files.
pub fn copy_of(alloc: Global, name: &str, label: &[u8]) -> io::Result<String> {
    let Ok(label) = str::from_utf8(label) else {
        return Err(ErrorKind::InvalidInput.into());
    };
    match name.rsplit_once('.') {
        Some((front, ending)) if !ending.contains('/') => {
            Ok(format!(in alloc; "{front}.{label}.{ending}")?)
        }
        _ => Err(ErrorKind::InvalidInput.into()),
    }
}
