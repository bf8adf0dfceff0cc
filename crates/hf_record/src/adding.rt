//! A record written where none was.
ghost use Rattle.std.specs.Prelude.{◌≡◌, ◌/◌, ◌^◌, ◌<◌, ◌≤◌, ◌⊎◌, length, IfOk, IsErrOf, IsTrue, false};
ghost use Rattle.tc_space.specs.Effects.{Outcome};
ghost use Rattle.tc_space.specs.Frames.{OnlyWrites};
ghost use Rattle.tc_space.specs.Refusals.{OnFault};
ghost use Rattle.hf_head.specs.Heads.{IsValid, unit, is_large};
ghost use Rattle.hf_tree.specs.Links.{width};
ghost use Rattle.hf_record.specs.Changing.{AddsRecord, CanChange, IsSized, StaysBody};
ghost use Rattle.hf_record.specs.Filling.{reach};
ghost use Rattle.hf_record.specs.Moves.{LacksPlace};

use crate::body::Body;
use hf_head::Head;
use tc_base::{FILE_MOST, SMALL_STARTS};
use tc_reach::{full_in, give_up, write_at};
use tc_space::{RecErr, Space};

// Whether a chain can name a place.
fn can_name(head: &Head, place: u64) -> bool
    requires head { IsValid head.now }
    ensures named { IsTrue result → place / unit head.now < 256 ^ width head.now }
    ensures far { result ≡ false → (is_large head.now ≡ false) × (2 ^ 32 ≤ place / unit head.now) }
{
    head.is_large() || place / head.unit() < SMALL_STARTS
}

// A chain can name the places below this one.
fn reach(head: &Head) -> u64
    requires head { IsValid head.now }
    ensures { result ≡ reach head.now }
{
    if head.is_large() {
        u64::MAX
    } else {
        SMALL_STARTS.saturating_mul(head.unit())
    }
}

// Whether a record may stand at a place of a file that then ends there.
fn has_room(head: &Head, place: u64, end: u64) -> bool
    requires head { IsValid head.now }
    ensures room { IsTrue result → (place / unit head.now < 256 ^ width head.now) × (end ≤ 2 ^ 40) }
    ensures none { result ≡ false → (2 ^ 40 < end) ⊎ ((is_large head.now ≡ false) × (2 ^ 32 ≤ place / unit head.now)) }
{
    if end > FILE_MOST {
        return false;
    }
    can_name(head, place)
}

impl Body {
    // Takes a block that a chain can name for a record that has these bytes, and writes it there: the place. After a refusal the space isn't sound.
    pub(crate) fn add<S: Space>(&mut self, space: &mut S, bytes: &[u8]) -> Result<u64, RecErr>
        requires may { CanChange S.Space self.old space.old }
        requires sized { IsSized self.old.head (length bytes.now) }
        ensures added { IfOk result (λ place. AddsRecord S.Space bytes.now place self.old self.new space.old space.new) }
        ensures stays { StaysBody self.old self.new }
        ensures outcome { Outcome S.sound S.flag result space.new }
        ensures writes { OnlyWrites S.Space space.old space.new }
        ensures full { IsErrOf result RecErr.Full → S.tells → LacksPlace S.Space self.old space.old space.new (length bytes.now) }
        ensures cause { OnFault S.Space result space.old space.new }
    {
        // no file whose bytes are told has more
        if self.pool.size() > FILE_MOST {
            give_up(space);
            return Err(RecErr::Memory);
        }
        let most = reach(&self.head);
        let place = self.pool.take(space, self.file, bytes.len() as u64, most)?;
        if !has_room(&self.head, place, self.pool.size()) {
            return Err(full_in(space));
        }
        write_at(space, self.file, place, bytes)?;
        Ok(place)
    }
}
