//! A hash file as a map over one file.
ghost use Rattle.tc_hash.specs.Ending.{slack_in};
ghost use Rattle.tc_hash.specs.Keeping.{LacksRecordOf, file_of, gets_of, holds, lacks_still, lead_of, numbers_of, region_of, sort_of};
ghost use Rattle.tc_hash.specs.Packing.{IsFilledWith, LacksLarge};
ghost use Rattle.tc_hash.specs.Repacking.{IsPackedFrom, WasPacked};
ghost use Rattle.tc_hash.specs.Standing.{StandsAs};

use crate::hash::Hash;
use tc_base::{Blob, Blobs, Form, Mode, Steps};
use tc_space::{PutErr, RecErr, Records, Space};

impl<S: Space> Records for Hash<S> {
    type S = S;

    ghost file_of = { file_of };

    ghost holds = { holds };

    ghost sort = { sort_of };

    ghost numbers = { numbers_of };

    ghost lead = { lead_of };

    ghost stands = { StandsAs };

    ghost region = { region_of };

    ghost lacks = { LacksRecordOf S.Space };

    ghost lacks_large = { LacksLarge S.Space };

    ghost filled = { λ h ps. IsFilledWith h ps };

    ghost tight = { WasPacked };

    ghost packed = { IsPackedFrom };

    ghost slack = { slack_in };

    ghost gets = { gets_of };

    ghost lacks_still = { λ h old mid new key value given lacks. lacks_still _ h old mid new key value given lacks };

    fn file(&self) -> u32 {
        self.body.file
    }

    fn count(&self) -> u64 {
        self.records
    }

    fn opaque(&self) -> [u8; 128] {
        self.region
    }

    fn get<L>(
        &mut self,
        space: &mut S,
        key: &[u8],
        steps: &mut Steps<L>,
    ) -> Result<Option<Blob>, RecErr> {
        Hash::get(self, space, key, steps)
    }

    fn put<L>(
        &mut self,
        space: &mut S,
        key: &[u8],
        value: &[u8],
        mode: Mode,
        steps: &mut Steps<L>,
    ) -> Result<(), PutErr> {
        Hash::put(self, space, key, value, mode, steps)
    }

    fn out<L>(&mut self, space: &mut S, key: &[u8], steps: &mut Steps<L>) -> Result<bool, RecErr> {
        Ok(Hash::out(self, space, key, steps)?.is_some())
    }

    fn keys<L>(&mut self, space: &mut S, steps: &mut Steps<L>) -> Result<Blobs, RecErr> {
        Hash::keys(self, space, steps)
    }

    fn set_opaque(&mut self, bytes: &[u8; 128]) {
        self.region = *bytes;
    }

    fn settle(&mut self, space: &mut S) -> Result<(), RecErr> {
        Hash::settle(self, space)
    }

    fn clear(&mut self, space: &mut S) -> Result<(), RecErr> {
        Hash::clear(self, space)
    }

    fn pack(&mut self, space: &mut S, form: Form) -> Result<(), RecErr> {
        Hash::pack(self, space, form)
    }
}
