//! Calls that go wrong.

use std::alloc::{AllocError, Global};
use tc_fakes::MemVolume;

/// How a call of a volume goes wrong.
#[derive(Clone, Copy, PartialEq, Eq)]
pub enum Trouble {
    /// It is the last: all behind it fail.
    Stop,
    /// It alone fails.
    Fault,
}

impl Trouble {
    /// That call of a volume, counted from 1, goes wrong so.
    pub fn meet(self, alloc: Global, vol: &mut MemVolume, call: u64) -> Result<(), AllocError> {
        match self {
            Trouble::Stop => vol.stop_after(call),
            Trouble::Fault => {
                let mut calls = Vec::new(alloc);
                calls.push(call)?;
                vol.fail_at(calls);
            }
        }
        Ok(())
    }
}
