//! A file made anew.
ghost use Rattle.std.specs.Prelude.{◌≡◌, false};
ghost use Rattle.tc_io.specs.Images.{now};
ghost use Rattle.tc_space.specs.Frames.{Follows};
ghost use Rattle.ty_base.specs.Holding.{Frame, Laid, no_layout};
ghost use Rattle.tk_top.specs.declared.ends.End.TheVariants.{Full, Refused};
ghost use Rattle.tk_top.specs.Stops.{LeavesAlone};
ghost use Rattle.tk_top.specs.Causes.{CausedByVolume};
ghost use Rattle.tk_top.specs.Naming.{NamesOnce};
ghost use Rattle.tk_top.specs.Making.{InShape, IsThere, JudgedMakingOn, JudgedMakingOver, LacksOn, MakesOn, MakesOver, MakesShaped};

use crate::ends::{End, Stopped};
use crate::naming::open_named;
use crate::volumes::OnVolume;
use std::alloc::Global;
use std::mem::ManuallyDrop;
use tc_base::FILE_MOST;
use tc_space::Space;
use ty_base::Opens;

/// Makes the main file of a space, which has to be empty, one of a shape, and commits it.
pub fn make_opened<B: Opens + Drop>(alloc: Global, shape: &B::Shape, space: &mut B::S) -> End
    requires sound { B.S.sound space.old }
    requires untouched { B.S.touched space.old ≡ false }
    requires numbers { B.may_be shape.now }
    // At any moment and however it ends, the main file is empty or one of that shape.
    ensures made { MakesShaped B.S.Space B.reopens (B.shaped shape.now) (B.anew shape.now) result space.old space.new }
    ensures laid { (l : Frame) → MakesOver B.S.Space (Laid B.own no_layout l B.reopens) (B.shaped shape.now) (B.anew shape.now) result space.old space.new }
    ensures judged { JudgedMakingOver B.S.Space B.reopens B.breaks_new result space.old space.new }
    // A main file that is there is looked at, and no more.
    ensures there { B.S.tells → IsThere (B.S.now space.old) → (result ≡ Refused) × (space.new ≡ space.old) }
    ensures full { result ≡ Full → B.S.tells → B.lacks space.new shape.now }
    ensures follows { Follows B.S.Space space.old space.new }
    ensures caused { CausedByVolume B.S.faults result space.old space.new }
{
    if space.len(0) != 0 {
        return End::Refused;
    }
    let base = match B::create(alloc, shape, space) {
        Ok(base) => base,
        Err(e) => return End::from(e),
    };
    let _ = ManuallyDrop::new(base);
    match space.commit() {
        Ok(()) => End::Done,
        Err(_) => End::VolumeFault,
    }
}

/// Makes the files that a volume keeps under a name anew, in a shape. It is refused where the main file isn't empty.
pub fn make_files<S: OnVolume, B: Opens<S = S> + Drop>(
    alloc: Global,
    name: &str,
    vol: S::V,
    shape: &B::Shape,
) -> Stopped<S::V>
    requires numbers { B.may_be shape.now }
    ensures names { NamesOnce S.V.Volume name.now vol result.vol }
    // What any stop leaves of a volume that was settled and whose files stood for contents.
    ensures made { MakesOn S.V.Volume B.reopens (B.shaped shape.now) (B.anew shape.now) result.end vol result.vol }
    // Where the main file is empty it is so, or one of that shape, at any moment and however it ends.
    ensures shaped { MakesOn S.V.Volume (InShape B.reopens (B.shaped shape.now)) (B.shaped shape.now) (B.anew shape.now) result.end vol result.vol }
    // Files beside them stay.
    ensures laid { (l : Frame) → MakesOn S.V.Volume (Laid B.own no_layout l B.reopens) (B.shaped shape.now) (B.anew shape.now) result.end vol result.vol }
    // Where it was made, the main file was empty and the files stood for contents; where it was refused, the main file wasn't empty; and where a rule is named, it is broken.
    ensures judged { JudgedMakingOn S.V.Volume B.reopens B.breaks_new result.end vol result.vol }
    ensures there { S.V.tells → LeavesAlone IsThere result.end (S.V.calls vol) (S.V.calls result.vol) }
    ensures full { result.end ≡ Full → LacksOn S.V.Volume S.Space S.under B.lacks shape.now vol result.vol }
    ensures caused { CausedByVolume S.V.faults result.end vol result.vol }
{
    let mut space = match open_named::<S>(alloc, name, vol, FILE_MOST) {
        Ok(space) => space,
        Err(stopped) => return stopped,
    };
    let end = make_opened::<B>(alloc, shape, &mut space);
    Stopped {
        end,
        vol: space.close_over(),
    }
}
