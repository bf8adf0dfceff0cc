//! The kept files are copied under a label.
ghost use Rattle.std.specs.Prelude.{◌≡◌, true, None, OnOk};
ghost use Rattle.tc_base.specs.Labels.{is_label};
ghost use Rattle.tc_io.specs.Causes.{HasCause};
ghost use Rattle.tc_io.specs.Copies.{IsCopied, MakesCopy};
ghost use Rattle.tc_io.specs.Images.{now};
ghost use Rattle.ud_log.specs.Undo.{data_of};

use tc_base::Fault;
use tc_io::Volume;
use tk_copy::copy_files;

/// Makes the copy under a label one of the files as they read, and lets it go whatever came of that. It takes no memory. As many syncs as `copy_files`.
pub fn make_copy<V: Volume>(vol: &mut V, label: &[u8]) -> Result<(), Fault>
    requires bound { V.bound vol.old ≡ true }
    requires label { is_label label.now ≡ true }
    ensures makes { V.tells → MakesCopy (data_of (now (V.calls vol.old))) label.now (V.names vol.old) (V.names vol.new) }
    ensures copied { OnOk result (V.tells → IsCopied (data_of (now (V.calls vol.old))) ((V.names vol.new).copies label.now)) }
    ensures let_go { (V.names vol.new).label ≡ None }
    ensures stays { (V.bound vol.new ≡ true) × ((V.names vol.new).told ≡ (V.names vol.old).told) × (V.tells → V.calls vol.new ≡ V.calls vol.old) }
    ensures cause { HasCause (V.faults vol.old) (V.faults vol.new) result }
{
    let mut room = [0; 4096];
    let copied = copy_files(vol, label, &mut room);
    vol.end_copy();
    copied
}
