//! Files by number, and their bytes.
ghost use Rattle.std.specs.Prelude.{◌≡◌, ◌<◌, ℕ, List, [], length, replicate, slice_index_or, IfOk, OnOk, OnErr};
ghost use Rattle.tc_fakes.specs.History.{left_in, made_in};

use crate::changes::Call;
use crate::choice::Choice;
use crate::file_bytes::FileBytes;
use std::alloc::{AllocError, Global};
use std::marker::Model;

/// How many files there are.
pub const FILES: u32 = 19;

/// The bytes of each file.
#[derive(Drop)]
pub struct FileSet {
    files: Vec<FileBytes>,
}

impl Model for FileSet {
    ghost Value = { List (List ℕ) };

    ghost view = { λ s. s.files.items };
}

impl FileSet {
    /// Empty files.
    pub fn new(alloc: Global) -> Result<FileSet, AllocError>
        ensures { IfOk result (λ s. s ≡ replicate FILES []) }
    {
        let mut files = Vec::with_capacity(alloc, FILES as usize)?;
        for _file in 0..FILES {
            files.push(FileBytes::new(alloc))?;
        }
        Ok(FileSet { files })
    }

    pub fn bytes(&self, file: u32) -> &[u8]
        requires { file < length self.now }
        ensures { result.now ≡ slice_index_or self.now file [] }
    {
        self.files[file as usize].as_slice()
    }

    /// Makes a change. An `Err` changes nothing.
    pub fn make(&mut self, call: &Call) -> Result<(), AllocError>
        requires { call.now.file < length self.old }
        ensures ok { OnOk result (self.new ≡ made_in call.now self.old) }
        ensures err { OnErr result (self.new ≡ self.old) }
    {
        self.files[call.file as usize].make(&call.change)
    }

    /// Makes of each image what a stop leaves of a change, where the files read `reads`. An `Err` changes nothing.
    pub fn leave(&mut self, call: &Call, reads: &FileSet, choice: &Choice) -> Result<(), AllocError>
        requires images { call.now.file < length self.old }
        requires files { call.now.file < length reads.now }
        ensures ok { OnOk result (self.new ≡ left_in choice.now call.now reads.now self.old) }
        ensures err { OnErr result (self.new ≡ self.old) }
    {
        self.files[call.file as usize].leave(&call.change, reads.bytes(call.file), choice)
    }
}
