//! A volume that is named and opened.
ghost use Rattle.std.specs.Prelude.{◌≤◌, ◌^◌, IfOk, IfErr};
ghost use Rattle.tk_top.specs.Naming.{EndsUnopened, OpensNamed};

use crate::ends::{End, Stopped};
use crate::volumes::OnVolume;
use std::alloc::Global;
use tc_io::Volume;

/// Names the files of a volume, recovers them, and opens a space over them. Where that is refused, the run ends so.
pub(crate) fn open_named<S: OnVolume>(
    alloc: Global,
    name: &str,
    vol: S::V,
    limit: u64,
) -> Result<S, Stopped<S::V>>
    requires limit { limit ≤ 2 ^ 40 }
    ensures opened { IfOk result (λ space. OpensNamed S.Space S.V.Volume name.now limit vol space) }
    ensures unopened { IfErr result (λ stopped. EndsUnopened S.V.Volume name.now stopped.end vol stopped.vol) }
{
    let mut vol = vol;
    match vol.bind(name) {
        Ok(()) => {}
        Err(_) => {
            return Err(Stopped {
                end: End::VolumeFault,
                vol,
            });
        }
    }
    match S::open_over(alloc, vol, limit) {
        Ok(space) => Ok(space),
        Err(refused) => Err(Stopped {
            end: End::from(refused.why),
            vol: refused.vol,
        }),
    }
}
