//! Records hung and taken out.
ghost use Rattle.std.specs.Prelude.{◌≡◌, IfOk, OnOk, IsErrOf, false};
ghost use Rattle.tc_io.specs.Causes.{HasCause};
ghost use Rattle.tc_space.specs.Effects.{Outcome};
ghost use Rattle.tc_space.specs.Frames.{OnlyReads, OnlyWrites, Keeps};
ghost use Rattle.hf_chain.specs.Chains.{CanName, HasSubtree, IsLast, MayHang};
ghost use Rattle.hf_chain.specs.Costs.{CostsOut, CostsWalk, PaidBy};
ghost use Rattle.hf_chain.specs.Files.{IsOpenFile};
ghost use Rattle.hf_chain.specs.Limits.{FaultOrFull, IsFull};
ghost use Rattle.hf_chain.specs.Searches.{IsHanging};
ghost use Rattle.hf_chain.specs.Linking.{ChangesBy, IsHung, IsOut, LooksFirst};

use crate::counting::count_step;
use crate::finding::Place;
use crate::heads::{place_named, read_head};
use crate::links::set_link;
use hf_head::Head;
use hf_tree::Parent;
use tc_base::{Fault, Steps};
use tc_space::{RecErr, Space};

/// Hangs the record at a place, whose chains are empty, into the gap of its key. One link is written. After a refusal the space isn't sound.
pub fn hang<S: Space>(
    space: &mut S,
    file: u32,
    head: &Head,
    at: u64,
    to: &Parent,
) -> Result<(), RecErr>
    requires ready { IsOpenFile S.Space head.now file space.old }
    requires names { CanName head.now at }
    requires gap { S.tells → MayHang head.now at to.now (S.now space.old file) }
    ensures hung { OnOk result (ChangesBy S.Space file (IsHung head.now at to.now) space.old space.new) }
    ensures outcome { Outcome S.sound S.flag result space.new }
    ensures writes { OnlyWrites S.Space space.old space.new }
    ensures full { IsErrOf result RecErr.Full → IsFull S.Space head.now file space.old space.new }
    ensures cause { FaultOrFull S.Space result space.old space.new }
{
    set_link(space, file, head, to, at / head.unit())
}

// The place of the rightmost record of a tree.
fn rightmost<S: Space, L>(
    space: &mut S,
    file: u32,
    head: &Head,
    at: u64,
    steps: &mut Steps<L>,
) -> Result<u64, Fault>
    requires ready { IsOpenFile S.Space head.now file space.old }
    requires tree { S.tells → HasSubtree head.now at (S.now space.old file) }
    ensures last { IfOk result (λ e. S.tells → IsLast head.now e at (S.now space.old file)) }
    ensures within { S.tells → CostsWalk S.Space head.now at file steps.old steps.new space.old space.new }
    ensures paid { PaidBy S.Space 40 steps.old steps.new space.old space.new }
    ensures reads { OnlyReads S.Space space.old space.new }
    ensures cause { HasCause (S.faults space.old) (S.faults space.new) result }
{
    let most = space.len(file);
    let mut end = at;
    for depth in 0..most {
        count_step(steps);
        let rec = read_head(space, file, head, end)?;
        if rec.right == 0 {
            return Ok(end);
        }
        end = place_named(head.unit(), rec.right);
    }
    Ok(end)
}

/// Takes the record of a key out of its bucket's tree: its one child, or its left one, takes its place, and the right one is hung on the
/// rightmost record of the left. At most two links are written. Its head isn't read again; a step is the read of another record: at most as many as there
/// are in the bucket. After a refusal nothing was written, or the space isn't sound; where it is full the space isn't sound.
pub fn unhang<S: Space, L>(
    space: &mut S,
    file: u32,
    head: &Head,
    place: &Place,
    steps: &mut Steps<L>,
) -> Result<(), RecErr>
    requires ready { IsOpenFile S.Space head.now file space.old }
    requires hangs { IsHanging S.Space head.now file space.old place.now }
    ensures out { OnOk result (ChangesBy S.Space file (IsOut head.now place.now.at place.now.from) space.old space.new) }
    ensures within { S.tells → CostsOut S.Space head.now place.now.at place.now.from file steps.old steps.new space.old space.new }
    ensures paid { PaidBy S.Space 40 steps.old steps.new space.old space.new }
    ensures outcome { LooksFirst S.Space result space.old space.new }
    ensures keeps { Keeps S.Space space.old space.new }
    ensures full { IsErrOf result RecErr.Full → (S.flag space.new ≡ false) × IsFull S.Space head.now file space.old space.new }
    ensures cause { FaultOrFull S.Space result space.old space.new }
{
    let rec = &place.rec;
    if rec.left == 0 {
        return set_link(space, file, head, &place.from, rec.right);
    }
    if rec.right == 0 {
        return set_link(space, file, head, &place.from, rec.left);
    }
    let top = place_named(head.unit(), rec.left);
    let end = rightmost(space, file, head, top, steps)?;
    set_link(space, file, head, &Parent::Right(end), rec.right)?;
    set_link(space, file, head, &place.from, rec.left)
}
