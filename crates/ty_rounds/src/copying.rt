//! Copies of the kept files, one after the other.
ghost use Rattle.std.specs.Prelude.{◌≡◌, [], false, map, OnOk, OnErr};
ghost use Rattle.tc_base.specs.LabelTexts.{text_of};
ghost use Rattle.tc_io.specs.Causes.{Rose};
ghost use Rattle.ty_rounds.specs.Copying.{AreMade, OnlyCopies, RoundCopies};

use tc_base::{Fault, Label};
use tc_space::Space;

/// Makes the copies of a round, where nothing was written since the last commit. It takes no memory.
#[inline(never)]
pub fn make_copies<S: Space>(space: &mut S, labels: &[Label]) -> Result<(), Fault>
    requires sound { S.sound space.old }
    requires untouched { S.touched space.old ≡ false }
    ensures copies { S.tells → RoundCopies (S.now space.old) (map text_of labels.now) (S.names space.old) (S.names space.new) }
    ensures made { OnOk result (S.tells → AreMade (S.now space.old) (map text_of labels.now) (S.names space.new)) }
    ensures only { OnlyCopies S.Space space.old space.new }
    ensures none { labels.now ≡ [] → space.new ≡ space.old }
    ensures counted { S.bytes_read space.new ≡ S.bytes_read space.old }
    ensures cause { OnErr result (Rose (S.faults space.old) (S.faults space.new)) }
{
    for label in labels {
        space.copy(label.as_slice())?;
    }
    Ok(())
}
