//! Recovery gives each data file its recorded length.
ghost use Rattle.std.specs.Prelude.{◌≡◌, ◌+◌, ◌≤◌, ℕ, true, length, OnOk};
ghost use Rattle.tc_base.specs.Files.{resized};
ghost use Rattle.tc_io.specs.Causes.{HasCause};
ghost use Rattle.tc_io.specs.Images.{now, of};
ghost use Rattle.ud_log.specs.Undo.{is_data, length_of};
ghost use Rattle.ud_state.specs.State.{Filled, Resized, FillsQuietly, ResizesQuietly};
ghost use Rattle.tc_undo.specs.Found.{KeepsReplay, QuietReplay};
ghost use Rattle.tc_undo.specs.Volumes.{StaysBound};

use tc_base::Fault;
use tc_io::Volume;
use ud_log::file_at;

/// Puts some zeros behind a data file.
fn fill_some<V: Volume>(vol: &mut V, file: u32, place: u64, n: u32) -> Result<(), Fault>
    requires bound { V.bound vol.old ≡ true }
    requires is_data { is_data file ≡ true }
    requires end { V.tells → length (now (V.calls vol.old) file) ≡ place }
    requires few { n ≤ 4096 }
    ensures quiet { V.tells → FillsQuietly (V.calls vol.old) (V.calls vol.new) file place }
    ensures filled { OnOk result (V.tells → Filled (V.calls vol.old) (V.calls vol.new) file place (place + n)) }
    ensures end { OnOk result (V.tells → length (now (V.calls vol.new) file) ≡ place + n) }
    ensures stays { StaysBound V.Volume vol.old vol.new }
    ensures cause { HasCause (V.faults vol.old) (V.faults vol.new) result }
{
    let zeros = [0u8; 4096];
    vol.write(file, place, &zeros[..n as usize])?;
    Ok(())
}

/// Fills a data file with zeros, to a length.
fn fill<V: Volume>(vol: &mut V, file: u32, from: u64, len: u64) -> Result<(), Fault>
    requires bound { V.bound vol.old ≡ true }
    requires is_data { is_data file ≡ true }
    requires end { V.tells → length (now (V.calls vol.old) file) ≡ from }
    requires order { from ≤ len }
    ensures quiet { V.tells → FillsQuietly (V.calls vol.old) (V.calls vol.new) file from }
    ensures filled { OnOk result (V.tells → Filled (V.calls vol.old) (V.calls vol.new) file from len) }
    ensures stays { StaysBound V.Volume vol.old vol.new }
    ensures cause { HasCause (V.faults vol.old) (V.faults vol.new) result }
{
    let mut place = from;
    while place < len {
        let n = (len - place).min(4096) as u32;
        fill_some(vol, file, place, n)?;
        place += n as u64;
    }
    Ok(())
}

/// Cuts a data file, or fills it with zeros, to a length.
fn set_length<V: Volume>(vol: &mut V, file: u32, len: u64) -> Result<(), Fault>
    requires bound { V.bound vol.old ≡ true }
    requires is_data { is_data file ≡ true }
    ensures quiet { V.tells → ResizesQuietly (V.calls vol.old) (V.calls vol.new) file len }
    ensures resized { OnOk result (V.tells → Resized (V.calls vol.old) (V.calls vol.new) file len) }
    ensures stays { StaysBound V.Volume vol.old vol.new }
    ensures cause { HasCause (V.faults vol.old) (V.faults vol.new) result }
{
    let from = vol.len(file)?;
    if len < from {
        vol.cut(file, len)?;
        return Ok(());
    }
    fill(vol, file, from, len)?;
    Ok(())
}

/// Gives each data file its length.
pub fn set_lengths<V: Volume>(vol: &mut V, lens: &[u64; 18]) -> Result<(), Fault>
    requires { V.bound vol.old ≡ true }
    ensures quiet { V.tells → QuietReplay lens.now (V.calls vol.old) (V.calls vol.new) }
    ensures replay { OnOk result (V.tells → KeepsReplay lens.now (V.calls vol.old) (V.calls vol.new)) }
    ensures reads { OnOk result (V.tells → (f : ℕ) → is_data f ≡ true → now (V.calls vol.new) f ≡ resized (length_of lens.now f) (now (V.calls vol.old) f)) }
    ensures log { OnOk result (V.tells → of 1 (V.calls vol.new) ≡ of 1 (V.calls vol.old)) }
    ensures stays { StaysBound V.Volume vol.old vol.new }
    ensures cause { HasCause (V.faults vol.old) (V.faults vol.new) result }
{
    for i in 0..18 {
        set_length(vol, file_at(i), lens[i])?;
    }
    Ok(())
}
