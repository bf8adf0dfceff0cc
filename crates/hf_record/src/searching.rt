//! The record of a key, searched, and its value.
ghost use Rattle.std.specs.Prelude.{◌≡◌, ℕ, ◌+◌, ◌≤◌, List, length, Some, IfOk};
ghost use Rattle.std.specs.FinMap.{get};
ghost use Rattle.tc_base.specs.Maps.{Map};
ghost use Rattle.tc_io.specs.Causes.{HasCause};
ghost use Rattle.tc_space.specs.Frames.{OnlyReads};
ghost use Rattle.tc_space.specs.Refusals.{Blames};
ghost use Rattle.hf_head.specs.declared.head.Head.{Head};
ghost use Rattle.hf_chain.specs.Costs.{PaidBy, step_most};
ghost use Rattle.hf_chain.specs.Heads.{IsHeadOf};
ghost use Rattle.hf_record.specs.Asking.{SearchedBy};
ghost use Rattle.hf_record.specs.Changing.{CanChange};
ghost use Rattle.hf_record.specs.Holding.{Has};
ghost use Rattle.hf_record.specs.Moves.{IsBlockAt};
ghost use Rattle.hf_record.specs.Searching.{EndsSo, IsFound};

use crate::body::Body;
use hf_chain::{Place, RecHead, Search, find};
use tc_base::{Blob, Fault, Steps};
use tc_reach::read_into;
use tc_space::{RecErr, Space};

/// The bytes of a record's block, from its head.
pub fn block_of(rec: &RecHead) -> u64
    ensures { (h : Head) (at : ℕ) (bytes : List ℕ) → IsHeadOf h at bytes rec.now → IsBlockAt h at result bytes }
{
    let bytes = rec.head.saturating_add(rec.key);
    bytes
        .saturating_add(rec.value)
        .saturating_add(u64::from(rec.pad))
}

impl Body {
    /// Searches a key: its record, or where it would hang. A step is the read of the bucket's entry or of one record: at most one more than there
    /// are keys in the bucket. It takes no memory.
    pub fn search<S: Space, L>(
        &self,
        space: &mut S,
        key: &[u8],
        steps: &mut Steps<L>,
    ) -> Result<Search, Fault>
        requires { CanChange S.Space self.now space.old }
        ensures ends { IfOk result (EndsSo S.Space self.now key.now space.new) }
        ensures within { S.tells → SearchedBy S.Space self.now key.now steps.old steps.new space.old space.new }
        ensures paid { PaidBy S.Space (step_most (length key.now)) steps.old steps.new space.old space.new }
        ensures reads { OnlyReads S.Space space.old space.new }
        ensures cause { HasCause (S.faults space.old) (S.faults space.new) result }
    {
        find(space, self.file, &self.head, key, steps)
    }

    /// The value of the key whose record was found. It reads no more bytes than the value has.
    pub fn value_at<S: Space>(
        &self,
        space: &mut S,
        key: &[u8],
        place: &Place,
    ) -> Result<Blob, RecErr>
        requires may { CanChange S.Space self.now space.old }
        requires found { IsFound S.Space self.now key.now space.old place.now }
        ensures value { IfOk result (λ v. S.tells → (m : Map) → Has self.now (S.now space.old self.now.file) m → get m key.now ≡ Some v) }
        ensures size { IfOk result (λ v. length v ≡ place.now.rec.value) }
        ensures counted { S.bytes_read space.new ≤ S.bytes_read space.old + place.now.rec.value }
        ensures reads { OnlyReads S.Space space.old space.new }
        ensures cause { Blames S.Space result space.old space.new }
    {
        let rec = &place.rec;
        let start = place.at.saturating_add(rec.head).saturating_add(rec.key);
        let mut value = vec![in self.alloc; 0; rec.value as usize]?;
        read_into(space, self.file, start, &mut value)?;
        Ok(Blob::from_vec(value))
    }
}
