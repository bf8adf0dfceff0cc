//! One file of a folder, which may be absent.

use crate::ahead::Ahead;
use crate::paged;
use crate::pages::Pages;
use std::alloc::Global;
use std::fs::{File, OpenOptions};
use std::io;
use std::io::ErrorKind;
use std::os::unix::fs::FileExt;
use std::rt::Files;

/// The first byte of an undo log. A log of this byte alone undoes nothing.
const MARK: u8 = b'T';

/// What a file is used for.
#[derive(Clone, Copy, PartialEq, Eq)]
pub enum Use {
    Main,
    /// Where it is cut to nothing its first byte stays on the disk, if that is the one that a log begins with: the system then keeps the block that it lies in, and
    /// needs no new one for the next log. A file of that byte alone is told as an empty one.
    Log,
    Other,
}

/// A file that this process alone changes: an absent one is empty, and is made at its first write, where nobody else has made it by then.
///
/// Its length is asked once, and again after a call that failed. Where a sync failed, no later one succeeds: the system may have
/// dropped what it didn't write.
#[derive(Drop)]
pub struct RealFile {
    path: String,
    // a lock on a main file and on a log is held as long as it is open
    of: Use,
    handle: Option<File>,
    len: u64,
    // whether it is a log whose first byte on the disk is the mark
    is_marked: bool,
    // whether its folder was synced since it was opened or made
    is_placed: bool,
    is_lost: bool,
    pages: Pages,
}

fn outside() -> io::Error {
    ErrorKind::InvalidInput.into()
}

// Takes the lock where one is wanted.
fn lock(file: &File, of: Use) -> io::Result<()> {
    if of != Use::Other {
        file.try_lock()?;
    }
    Ok(())
}

// A log of so many bytes begins with the mark.
fn begins_marked(file: &File, of: Use, len: u64) -> io::Result<bool> {
    if of != Use::Log || len == 0 {
        return Ok(false);
    }
    let mut first = [0u8; 1];
    file.read_exact_at(&mut first, 0)?;
    Ok(first[0] == MARK)
}

// The length that is told of a file of so many bytes.
fn told(len: u64, is_marked: bool) -> u64 {
    if is_marked && len == 1 { 0 } else { len }
}

impl RealFile {
    /// Opens a file where it is there. Of a log that isn't empty the first byte is read.
    pub fn open<R: Files<File = File>>(
        rt: &R,
        alloc: Global,
        path: String,
        of: Use,
    ) -> io::Result<RealFile> {
        let opened = OpenOptions::new()
            .read(true)
            .write(true)
            .open(rt, path.as_str());
        let mut len = 0;
        let mut is_marked = false;
        let handle = match opened {
            Err(e) if e.kind() == ErrorKind::NotFound => None,
            opened => {
                let file = opened?;
                lock(&file, of)?;
                let found = file.metadata()?.len();
                is_marked = begins_marked(&file, of, found)?;
                len = told(found, is_marked);
                Some(file)
            }
        };
        Ok(RealFile {
            path,
            of,
            handle,
            len,
            is_marked,
            is_placed: false,
            is_lost: false,
            pages: Pages::new(alloc),
        })
    }

    pub fn len(&self) -> u64 {
        self.len
    }

    /// Fills bytes from a place on that lie in it, if they are kept, all in one page. Answers whether they are.
    #[inline(always)]
    pub fn copy_kept(&self, at: u64, into: &mut [u8]) -> bool {
        let size = into.len() as u64;
        at <= self.len && size <= self.len - at && self.pages.copy(at, into)
    }

    /// Fills bytes from a place on. The system is asked once at most, and not where all of them are kept.
    pub fn read(&mut self, at: u64, into: &mut [u8]) -> io::Result<()> {
        let Some(end) = at.checked_add(into.len() as u64) else {
            return Err(outside());
        };
        if end > self.len {
            return Err(outside());
        }
        let Some(file) = &self.handle else {
            return Ok(());
        };
        paged::read(&mut self.pages, file, self.len, at, into)
    }

    /// Fills bytes from a place on, and reads those behind them ahead. The system is asked once at most.
    pub fn read_ahead(&self, ahead: &mut Ahead, at: u64, into: &mut [u8]) -> io::Result<()> {
        let size = into.len() as u64;
        if at > self.len || size > self.len - at {
            return Err(outside());
        }
        let Some(file) = &self.handle else {
            return Ok(());
        };
        ahead.read(file, self.len, at, into)
    }

    // Makes it where it is absent.
    fn make<R: Files<File = File>>(&mut self, rt: &R) -> io::Result<()> {
        if self.handle.is_none() {
            let file = OpenOptions::new()
                .read(true)
                .write(true)
                .create_new(true)
                .open(rt, self.path.as_str())?;
            lock(&file, self.of)?;
            self.handle = Some(file);
            self.is_placed = false;
        }
        Ok(())
    }

    // The length that the system tells after a call that failed, and the first byte of a log.
    fn ask(&mut self) {
        if let Some(file) = &self.handle
            && let Ok(found) = file.metadata()
        {
            self.is_marked = matches!(begins_marked(file, self.of, found.len()), Ok(true));
            self.len = told(found.len(), self.is_marked);
        }
    }

    /// Writes all the bytes from a place on.
    pub fn write<R: Files<File = File>>(
        &mut self,
        rt: &R,
        at: u64,
        bytes: &[u8],
    ) -> io::Result<()> {
        let Some(end) = at.checked_add(bytes.len() as u64) else {
            return Err(outside());
        };
        if at > self.len {
            return Err(outside());
        }
        if bytes.is_empty() {
            return Ok(());
        }
        self.make(rt)?;
        let Some(file) = &self.handle else {
            return Err(outside());
        };
        match paged::write(&mut self.pages, file, at, bytes) {
            Ok(()) => {
                self.len = self.len.max(end);
                if at == 0 {
                    self.is_marked = self.of == Use::Log && bytes[0] == MARK;
                }
                Ok(())
            }
            Err(e) => {
                self.ask();
                Err(e)
            }
        }
    }

    /// Shortens it to a length.
    pub fn cut(&mut self, len: u64) -> io::Result<()> {
        if len > self.len {
            return Err(outside());
        }
        let Some(file) = &self.handle else {
            return Ok(());
        };
        let left = if self.is_marked { len.max(1) } else { len };
        match paged::cut(&mut self.pages, file, len, left, self.len) {
            Ok(()) => {
                self.len = len;
                Ok(())
            }
            Err(e) => {
                self.ask();
                Err(e)
            }
        }
    }

    /// Lets go of the first byte of a log that is cut to nothing. Where that fails the byte stays.
    pub fn clear(&mut self) {
        if self.len > 0 || !self.is_marked {
            return;
        }
        if let Some(file) = &self.handle
            && file.set_len(0).is_ok()
        {
            self.is_marked = false;
        }
    }

    /// Syncs it, and before its first sync the folder that names it.
    pub fn sync<R: Files<File = File>>(&mut self, rt: &R, folder: &str) -> io::Result<()> {
        let Some(file) = &self.handle else {
            return Ok(());
        };
        if self.is_lost {
            return Err(ErrorKind::Other.into());
        }
        self.is_lost = true;
        if !self.is_placed {
            File::open(rt, folder)?.sync_all()?;
            self.is_placed = true;
        }
        file.sync_data()?;
        self.is_lost = false;
        Ok(())
    }
}
