//! The volume over real files. It tells nothing of content.
ghost use Rattle.std.specs.Prelude.{◌≡◌, None, false, IfOk, Ok};
ghost use Rattle.tc_io.specs.Causes.{HasCause};

use crate::bound_copy::BoundCopy;
use crate::file_list::{clear_log, copy_of, cut_of, len_of, open_all, sync_of, write_of};
use crate::names::folder_of;
use crate::real_file::RealFile;
use std::alloc::Global;
use std::fs::File;
use std::io;
use std::rt::Files;
use tc_base::Fault;
use tc_io::Volume;

/// The 19 files of a database under a name in a folder, each with one open handle: the name itself, the name with `.undo`, with `.ulog`, and with
/// `.idx.00` to `.idx.15`.
///
/// A `bind` opens those that are there, and makes none; a file is made at its first write. The main file and the undo log are locked against another process
/// from when they are opened or made: of two processes one has a fault at its `bind` or at its first write. Each failed call of the system is a fault.
///
/// Where the undo log is cut to nothing its first byte stays on the disk, if that is `T`, and the log's length is told as 0; so it is where such a file is opened. The
/// system then keeps the block of the log, and a commit needn't wait for one. `end` cuts it.
///
/// The copy of `x.tch` under a label is `x.LABEL.tch`, with files of the same endings behind that name. They are open and locked from `bind_copy` to `end_copy`.
/// A file of a copy that is absent costs no call of the system but the one that looks for it.
#[derive(Drop)]
pub struct FolderVolume<'a, R> {
    rt: &'a R,
    alloc: Global,
    name: String,
    files: Vec<RealFile>,
    is_bound: bool,
    copy: BoundCopy,
    faults: u64,
}

impl<'a, R: Files<File = File>> FolderVolume<'a, R> {
    /// A volume that isn't bound yet. It calls nothing of the system and takes no memory.
    pub fn new(rt: &'a R, alloc: Global) -> FolderVolume<'a, R>
        ensures bound { result.is_bound ≡ false }
        ensures copy { result.copy.label ≡ None }
    {
        FolderVolume {
            rt,
            alloc,
            name: String::new(alloc),
            files: Vec::new(alloc),
            is_bound: false,
            copy: BoundCopy::none(alloc),
            faults: 0,
        }
    }

    // Fills bytes from a place on, and asks the system where not all of them are kept.
    #[inline(never)]
    fn read_through(&mut self, file: u32, at: u64, into: &mut [u8]) -> Result<(), Fault>
        ensures bound { self.new.is_bound ≡ self.old.is_bound }
        ensures label { self.new.copy.label ≡ self.old.copy.label }
        ensures cause { HasCause self.old.faults self.new.faults result }
    {
        let done = self.copy.read_source(&mut self.files, file, at, into);
        counted(&mut self.faults, done)
    }

    /// Lets go of the byte that stays of an undo log that was cut to nothing. Where that fails it stays, and counts as no log.
    pub fn end(&mut self)
        ensures { self.new ≡ record self.old { files = self.new.files } }
    {
        clear_log(&mut self.files);
    }
}

// The answer to a call, after a fault was counted where it failed.
fn counted<T>(faults: &mut u64, done: io::Result<T>) -> Result<T, Fault>
    ensures value { IfOk result (λ value. done ≡ Ok value) }
    ensures cause { HasCause faults.old faults.new result }
{
    match done {
        Ok(value) => Ok(value),
        Err(_) => {
            *faults = faults.saturating_add(1);
            Err(Fault)
        }
    }
}

impl<'a, R: Files<File = File>> Volume for FolderVolume<'a, R> {
    ghost use Rattle.std.specs.Prelude.{None, []};
    ghost use Rattle.tc_realfs.specs.Labelled.{text_in};

    ghost tells = { ⊥ };

    ghost calls = { λ _. [] };

    ghost bound = { λ v. v.is_bound };

    ghost names = { λ v. record { told = None; label = text_in v.copy.label; copies = λ l. [] } };

    ghost faults = { λ v. v.faults };

    ghost now_is_image = { λ v told. absurd told };

    ghost copy_is_image = { λ v label told. absurd told };

    fn bind(&mut self, name: &str) -> Result<(), Fault> {
        let opened = open_all(self.rt, self.alloc, name);
        let files = counted(&mut self.faults, opened)?;
        let copied = String::from_str(self.alloc, name);
        let Ok(copy) = copied else {
            self.faults = self.faults.saturating_add(1);
            return Err(Fault);
        };
        self.copy.forget_ahead();
        self.name = copy;
        self.files = files;
        self.is_bound = true;
        Ok(())
    }

    fn len(&mut self, file: u32) -> Result<u64, Fault> {
        let len = len_of(&mut self.files, file);
        counted(&mut self.faults, len)
    }

    #[inline(always)]
    fn read(&mut self, file: u32, at: u64, into: &mut [u8]) -> Result<(), Fault> {
        if copy_of(&self.files, file, at, into) {
            return Ok(());
        }
        self.read_through(file, at, into)
    }

    fn write(&mut self, file: u32, at: u64, bytes: &[u8]) -> Result<(), Fault> {
        self.copy.forget_ahead();
        let done = write_of(&mut self.files, self.rt, file, at, bytes);
        counted(&mut self.faults, done)
    }

    fn cut(&mut self, file: u32, len: u64) -> Result<(), Fault> {
        self.copy.forget_ahead();
        let done = cut_of(&mut self.files, file, len);
        counted(&mut self.faults, done)
    }

    fn sync(&mut self, file: u32) -> Result<(), Fault> {
        let folder = folder_of(self.name.as_str());
        let done = sync_of(&mut self.files, self.rt, file, folder);
        counted(&mut self.faults, done)
    }

    fn bind_copy(&mut self, label: &[u8]) -> Result<(), Fault> {
        let sent = self.copy.send(self.rt);
        counted(&mut self.faults, sent)?;
        self.copy = BoundCopy::none(self.alloc);
        let opened = BoundCopy::open(self.rt, self.alloc, self.name.as_str(), label);
        let copy = counted(&mut self.faults, opened)?;
        self.copy = copy;
        Ok(())
    }

    fn copy_len(&mut self, file: u32) -> Result<u64, Fault> {
        let len = self.copy.len(self.rt, file);
        counted(&mut self.faults, len)
    }

    fn copy_read(&mut self, file: u32, at: u64, into: &mut [u8]) -> Result<(), Fault> {
        let done = self.copy.read(self.rt, file, at, into);
        counted(&mut self.faults, done)
    }

    fn copy_write(&mut self, file: u32, at: u64, bytes: &[u8]) -> Result<(), Fault> {
        let done = self.copy.write(self.rt, file, at, bytes);
        counted(&mut self.faults, done)
    }

    fn copy_cut(&mut self, file: u32, len: u64) -> Result<(), Fault> {
        let done = self.copy.cut(self.rt, file, len);
        counted(&mut self.faults, done)
    }

    fn copy_sync(&mut self, file: u32) -> Result<(), Fault> {
        let done = self.copy.sync(self.rt, file);
        counted(&mut self.faults, done)
    }

    fn end_copy(&mut self) {
        let sent = self.copy.send(self.rt);
        let _ = counted(&mut self.faults, sent);
        self.copy = BoundCopy::none(self.alloc);
    }
}
