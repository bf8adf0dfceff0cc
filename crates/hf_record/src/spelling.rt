//! The bytes of a record's block.
ghost use Rattle.std.specs.Prelude.{◌≡◌, ◌≤◌, ◌<◌, ◌^◌, IfOk, IsErrOf, IfSome, IfNone};
ghost use Rattle.hf_tree.specs.Links.{width};
ghost use Rattle.hf_record.specs.Changing.{AreBytesOf, record_in, size_in};

use crate::body::Body;
use hf_block::{rec_len, write_rec};
use tc_base::{BLOCK_MOST, Blob};
use tc_space::RecErr;

impl Body {
    /// The bytes of the block of a record with this key and value; none where they are more than a block may have.
    pub fn size_for(&self, key: &[u8], value: &[u8]) -> Option<u64>
        ensures some { IfSome result (λ b. (b ≡ size_in self.now key.now value.now) × (b ≤ 2 ^ 30)) }
        ensures none { IfNone result (2 ^ 30 < size_in self.now key.now value.now) }
    {
        let key_len = key.len() as u64;
        let value_len = value.len() as u64;
        if key_len > BLOCK_MOST || value_len > BLOCK_MOST {
            return None;
        }
        let size = rec_len(key_len, value_len, self.head.unit(), self.head.is_large());
        if size > BLOCK_MOST {
            return None;
        }
        Some(size)
    }

    // The bytes of the block of a record with these chains. Full comes exactly where they are more than a block may have.
    pub(crate) fn spell(
        &self,
        hash: u8,
        left: u64,
        right: u64,
        key: &[u8],
        value: &[u8],
    ) -> Result<Blob, RecErr>
        requires left { left < 256 ^ width self.now.head }
        requires right { right < 256 ^ width self.now.head }
        ensures bytes { IfOk result (AreBytesOf self.now.head (record_in self.now.head hash left right key.now value.now)) }
        ensures full { IsErrOf result RecErr.Full → 2 ^ 30 < size_in self.now key.now value.now }
        ensures fault { IsErrOf result RecErr.Fault → ⊥ }
    {
        let Some(size) = self.size_for(key, value) else {
            return Err(RecErr::Full);
        };
        // all bytes of a large value are written into one place
        let mut room = Vec::new(self.alloc);
        room.reserve(size as usize)?;
        let mut bytes = Blob::from_vec(room);
        write_rec(
            hash,
            left,
            right,
            key,
            value,
            self.head.unit(),
            self.head.is_large(),
            &mut bytes,
        )?;
        Ok(bytes)
    }
}
