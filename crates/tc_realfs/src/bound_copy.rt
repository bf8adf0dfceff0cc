//! The files of the copy that is bound.
ghost use Rattle.std.specs.Prelude.{◌≡◌, None, Some, IfOk};
ghost use Rattle.tc_realfs.specs.Labelled.{text_in};

use crate::ahead::Ahead;
use crate::file_list::{cut_of, file_of, len_of, open_all, read_of, sync_of, write_of};
use crate::gathered::Gathered;
use crate::names::{copy_of, folder_of};
use crate::real_file::RealFile;
use std::alloc::Global;
use std::fs::File;
use std::io;
use std::io::ErrorKind;
use std::rt::Files;
use tc_base::Label;

/// The copy of a database that is bound, or none. Writes that follow one another are gathered to 64 KiB, and sent before any other call.
#[derive(Drop)]
pub struct BoundCopy {
    pub label: Option<Label>,
    name: String,
    files: Vec<RealFile>,
    gathered: Gathered,
    // what was read ahead, and of which file of the database
    ahead: Ahead,
    source: u32,
}

impl BoundCopy {
    /// No copy, which takes no memory.
    pub fn none(alloc: Global) -> BoundCopy
        ensures { result.label ≡ None }
    {
        BoundCopy {
            label: None,
            name: String::new(alloc),
            files: Vec::new(alloc),
            gathered: Gathered::new(alloc),
            ahead: Ahead::new(alloc),
            source: 0,
        }
    }

    /// Opens the files of the copy of a name that are there. They are locked as those of a database are, so a copy that is served isn't written over.
    pub fn open<R: Files<File = File>>(
        rt: &R,
        alloc: Global,
        name: &str,
        label: &[u8],
    ) -> io::Result<BoundCopy>
        ensures { IfOk result (λ copy. text_in copy.label ≡ Some label.now) }
    {
        let Some(bound) = Label::of(label) else {
            return Err(ErrorKind::InvalidInput.into());
        };
        let name = copy_of(alloc, name, label)?;
        let files = open_all(rt, alloc, name.as_str())?;
        Ok(BoundCopy {
            label: Some(bound),
            name,
            files,
            gathered: Gathered::new(alloc),
            ahead: Ahead::new(alloc),
            source: 0,
        })
    }

    /// Writes what was gathered. After an error any of it may be there, and no call on the copy succeeds until it is bound anew.
    pub fn send<R: Files<File = File>>(&mut self, rt: &R) -> io::Result<()>
        ensures { self.new.label ≡ self.old.label }
    {
        if self.gathered.is_empty() {
            return Ok(());
        }
        let (file, at) = (self.gathered.file, self.gathered.at);
        let done = write_of(&mut self.files, rt, file, at, self.gathered.as_slice());
        self.gathered.clear();
        if done.is_err() {
            self.files.clear();
        }
        done
    }

    pub fn len<R: Files<File = File>>(&mut self, rt: &R, file: u32) -> io::Result<u64>
        ensures { self.new.label ≡ self.old.label }
    {
        self.send(rt)?;
        len_of(&mut self.files, file)
    }

    pub fn read<R: Files<File = File>>(
        &mut self,
        rt: &R,
        file: u32,
        at: u64,
        into: &mut [u8],
    ) -> io::Result<()>
        ensures { self.new.label ≡ self.old.label }
    {
        self.send(rt)?;
        read_of(&mut self.files, file, at, into)
    }

    // Gathers bytes behind those that are gathered. Answers whether it did.
    fn follow(&mut self, file: u32, at: u64, bytes: &[u8]) -> bool
        ensures { self.new.label ≡ self.old.label }
    {
        if self.gathered.is_empty() {
            return false;
        }
        self.gathered.add(file, at, bytes)
    }

    // Gathers bytes that begin within the file where none are gathered, else writes them.
    fn begin<R: Files<File = File>>(
        &mut self,
        rt: &R,
        file: u32,
        at: u64,
        bytes: &[u8],
    ) -> io::Result<()>
        ensures { self.new.label ≡ self.old.label }
    {
        let len = len_of(&mut self.files, file)?;
        if at <= len && self.gathered.add(file, at, bytes) {
            return Ok(());
        }
        write_of(&mut self.files, rt, file, at, bytes)
    }

    /// Gathers bytes where they follow those that are gathered, else sends these and begins anew. What lies outside the file is refused at once.
    pub fn write<R: Files<File = File>>(
        &mut self,
        rt: &R,
        file: u32,
        at: u64,
        bytes: &[u8],
    ) -> io::Result<()>
        ensures { self.new.label ≡ self.old.label }
    {
        if self.follow(file, at, bytes) {
            return Ok(());
        }
        self.send(rt)?;
        self.begin(rt, file, at, bytes)
    }

    pub fn cut<R: Files<File = File>>(&mut self, rt: &R, file: u32, len: u64) -> io::Result<()>
        ensures { self.new.label ≡ self.old.label }
    {
        self.send(rt)?;
        cut_of(&mut self.files, file, len)
    }

    pub fn sync<R: Files<File = File>>(&mut self, rt: &R, file: u32) -> io::Result<()>
        ensures { self.new.label ≡ self.old.label }
    {
        self.send(rt)?;
        let folder = folder_of(self.name.as_str());
        sync_of(&mut self.files, rt, file, folder)
    }

    /// Lets go of what was read ahead, since files of the database change.
    pub fn forget_ahead(&mut self)
        ensures { self.new.label ≡ self.old.label }
    {
        self.ahead.forget();
    }

    /// Fills bytes with those of a file of the database from a place on. While a copy is bound up to 64 KiB are read at once.
    pub fn read_source(
        &mut self,
        files: &mut [RealFile],
        file: u32,
        at: u64,
        into: &mut [u8],
    ) -> io::Result<()>
        ensures { self.new.label ≡ self.old.label }
    {
        if self.label.is_none() {
            return read_of(files, file, at, into);
        }
        self.turn_to(file);
        file_of(files, file)?.read_ahead(&mut self.ahead, at, into)
    }

    // What is read ahead is of that file.
    fn turn_to(&mut self, file: u32)
        ensures { self.new.label ≡ self.old.label }
    {
        if self.source != file {
            self.ahead.forget();
            self.source = file;
        }
    }
}
