//! The files of a database by number.

use crate::names::path_of;
use crate::real_file::{RealFile, Use};
use std::alloc::Global;
use std::fs::File;
use std::io;
use std::io::ErrorKind;
use std::rt::Files;

// What a file of a number is used for.
fn use_of(file: u32) -> Use {
    match file {
        0 => Use::Main,
        1 => Use::Log,
        _ => Use::Other,
    }
}

/// Opens the files of a name that are there, the main file first. The main file and the log are locked.
pub fn open_all<R: Files<File = File>>(
    rt: &R,
    alloc: Global,
    name: &str,
) -> io::Result<Vec<RealFile>> {
    let mut files = Vec::with_capacity(alloc, 19)?;
    for file in 0..19u32 {
        let path = path_of(alloc, name, file)?;
        files.push(RealFile::open(rt, alloc, path, use_of(file))?)?;
    }
    Ok(files)
}

/// A file by its number.
pub fn file_of(files: &mut [RealFile], file: u32) -> io::Result<&mut RealFile> {
    let Some(one) = files.get_mut(file as usize) else {
        return Err(ErrorKind::NotFound.into());
    };
    Ok(one)
}

pub fn len_of(files: &mut [RealFile], file: u32) -> io::Result<u64> {
    Ok(file_of(files, file)?.len())
}

/// Fills bytes with those from a place on of a file by its number, if they are kept, all in one page. Answers whether they are.
#[inline(always)]
pub fn copy_of(files: &[RealFile], file: u32, at: u64, into: &mut [u8]) -> bool {
    match files.get(file as usize) {
        Some(one) => one.copy_kept(at, into),
        None => false,
    }
}

pub fn read_of(files: &mut [RealFile], file: u32, at: u64, into: &mut [u8]) -> io::Result<()> {
    file_of(files, file)?.read(at, into)
}

pub fn write_of<R: Files<File = File>>(
    files: &mut [RealFile],
    rt: &R,
    file: u32,
    at: u64,
    bytes: &[u8],
) -> io::Result<()> {
    file_of(files, file)?.write(rt, at, bytes)
}

pub fn cut_of(files: &mut [RealFile], file: u32, len: u64) -> io::Result<()> {
    file_of(files, file)?.cut(len)
}

pub fn sync_of<R: Files<File = File>>(
    files: &mut [RealFile],
    rt: &R,
    file: u32,
    folder: &str,
) -> io::Result<()> {
    file_of(files, file)?.sync(rt, folder)
}

/// Lets go of what the log has on the disk where it is told as empty.
pub fn clear_log(files: &mut [RealFile]) {
    if let Some(log) = files.get_mut(1) {
        log.clear();
    }
}
