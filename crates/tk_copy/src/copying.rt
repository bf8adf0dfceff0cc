//! The kept files are copied, one after the other.
ghost use Rattle.std.specs.Prelude.{◌≡◌, ◌≢◌, ◌≤◌, ◌+◌, ℕ, List, [], true, take, length, Some, OnOk};
ghost use Rattle.tc_base.specs.Labels.{is_label};
ghost use Rattle.tc_io.specs.Causes.{HasCause};
ghost use Rattle.tc_io.specs.Copies.{IsCopied, IsCopyBound, MakesCopy, copy_of};
ghost use Rattle.tc_base.specs.Files.{Files};
ghost use Rattle.tc_io.specs.Images.{now, of};
ghost use Rattle.ud_log.specs.Undo.{data_of, is_data};
ghost use Rattle.tk_copy.specs.Copying.{AreCopied, ChangesCopy, Copies, CopiesFile, Finishes, StaysSpoiled};

use crate::spoiling::spoil;
use tc_base::Fault;
use tc_io::Volume;
use ud_log::file_at;

// Copies up to 4,096 bytes of a file from a place on, behind those that the copy has.
fn copy_some<V: Volume>(vol: &mut V, file: u32, at: u64, room: &mut [u8]) -> Result<(), Fault>
    requires bound { IsCopyBound (V.bound vol.old) (V.names vol.old) }
    requires file { (file ≤ 18) × (file ≢ 1) }
    requires inside { V.tells → at + length room.old ≤ length (now (V.calls vol.old) file) }
    requires so_far { V.tells → now (copy_of (V.names vol.old)) file ≡ take at (now (V.calls vol.old) file) }
    ensures so_far { OnOk result (V.tells → now (copy_of (V.names vol.new)) file ≡ take (at + length room.old) (now (V.calls vol.old) file)) }
    ensures others { OnOk result (V.tells → (g : ℕ) → (file ≡ g → ⊥) → of g (copy_of (V.names vol.new)) ≡ of g (copy_of (V.names vol.old))) }
    ensures spoiled { V.tells → StaysSpoiled (copy_of (V.names vol.old)) (copy_of (V.names vol.new)) }
    ensures changes { ChangesCopy V.Volume vol.old vol.new }
    ensures cause { HasCause (V.faults vol.old) (V.faults vol.new) result }
{
    vol.read(file, at, room)?;
    vol.copy_write(file, at, room)?;
    Ok(())
}

// Copies the bytes of a file behind none.
fn copy_bytes<V: Volume>(vol: &mut V, file: u32, room: &mut [u8; 4096]) -> Result<(), Fault>
    requires bound { IsCopyBound (V.bound vol.old) (V.names vol.old) }
    requires file { (file ≤ 18) × (file ≢ 1) }
    requires empty { V.tells → now (copy_of (V.names vol.old)) file ≡ [] }
    ensures all { OnOk result (V.tells → now (copy_of (V.names vol.new)) file ≡ now (V.calls vol.old) file) }
    ensures others { OnOk result (V.tells → (g : ℕ) → (file ≡ g → ⊥) → of g (copy_of (V.names vol.new)) ≡ of g (copy_of (V.names vol.old))) }
    ensures spoiled { V.tells → StaysSpoiled (copy_of (V.names vol.old)) (copy_of (V.names vol.new)) }
    ensures changes { ChangesCopy V.Volume vol.old vol.new }
    ensures cause { HasCause (V.faults vol.old) (V.faults vol.new) result }
{
    let len = vol.len(file)?;
    let mut at = 0;
    while at < len {
        let size = (len - at).min(4096);
        copy_some(vol, file, at, &mut room[..size as usize])?;
        at += size;
    }
    Ok(())
}

// Copies a file. One sync.
fn copy_file<V: Volume>(vol: &mut V, file: u32, room: &mut [u8; 4096]) -> Result<(), Fault>
    requires bound { IsCopyBound (V.bound vol.old) (V.names vol.old) }
    requires file { (file ≤ 18) × (file ≢ 1) }
    ensures copied { OnOk result (V.tells → CopiesFile (copy_of (V.names vol.old)) (copy_of (V.names vol.new)) file (now (V.calls vol.old) file)) }
    ensures spoiled { V.tells → StaysSpoiled (copy_of (V.names vol.old)) (copy_of (V.names vol.new)) }
    ensures changes { ChangesCopy V.Volume vol.old vol.new }
    ensures cause { HasCause (V.faults vol.old) (V.faults vol.new) result }
{
    vol.copy_cut(file, 0)?;
    copy_bytes(vol, file, room)?;
    vol.copy_sync(file)?;
    Ok(())
}

// Copies all data files.
fn copy_all<V: Volume>(vol: &mut V, room: &mut [u8; 4096]) -> Result<(), Fault>
    requires bound { IsCopyBound (V.bound vol.old) (V.names vol.old) }
    ensures copied { OnOk result (V.tells → AreCopied (data_of (now (V.calls vol.old))) (copy_of (V.names vol.new)) 18) }
    ensures spoiled { V.tells → StaysSpoiled (copy_of (V.names vol.old)) (copy_of (V.names vol.new)) }
    ensures changes { ChangesCopy V.Volume vol.old vol.new }
    ensures cause { HasCause (V.faults vol.old) (V.faults vol.new) result }
{
    for i in 0..18 {
        copy_file(vol, file_at(i), room)?;
    }
    Ok(())
}

// Cuts the log of a copy that is whole to nothing.
fn finish<V: Volume>(vol: &mut V) -> Result<(), Fault>
    requires bound { IsCopyBound (V.bound vol.old) (V.names vol.old) }
    ensures moments { V.tells → Finishes (copy_of (V.names vol.old)) (copy_of (V.names vol.new)) }
    ensures copied { OnOk result (V.tells → (kept : Files) → AreCopied kept (copy_of (V.names vol.old)) 18 → IsCopied kept (copy_of (V.names vol.new))) }
    ensures changes { ChangesCopy V.Volume vol.old vol.new }
    ensures cause { HasCause (V.faults vol.old) (V.faults vol.new) result }
{
    vol.copy_cut(1, 0)?;
    vol.copy_sync(1)?;
    Ok(())
}

// Makes the copy whose label was bound last a copy of the files.
fn copy_bound<V: Volume>(vol: &mut V, room: &mut [u8; 4096]) -> Result<(), Fault>
    requires bound { IsCopyBound (V.bound vol.old) (V.names vol.old) }
    ensures moments { V.tells → Copies (data_of (now (V.calls vol.old))) (copy_of (V.names vol.old)) (copy_of (V.names vol.new)) }
    ensures copied { OnOk result (V.tells → IsCopied (data_of (now (V.calls vol.old))) (copy_of (V.names vol.new))) }
    ensures changes { ChangesCopy V.Volume vol.old vol.new }
    ensures cause { HasCause (V.faults vol.old) (V.faults vol.new) result }
{
    spoil(vol)?;
    copy_all(vol, room)?;
    finish(vol)?;
    Ok(())
}

/// Makes the copy under a label a copy of the files as they read, in pieces of 4,096 bytes and with no memory taken. 20 syncs, and one more where the
/// copy's undo log was empty or began as one.
///
/// A stop at any moment leaves of the copy what one left before, an undo log that breaks the first rule, or the files byte for byte; after `Ok` the last alone.
/// A fault comes only from a call of the volume, and leaves what a stop there does. The copy stays bound.
pub fn copy_files<V: Volume>(vol: &mut V, label: &[u8], room: &mut [u8; 4096]) -> Result<(), Fault>
    requires bound { V.bound vol.old ≡ true }
    requires label { is_label label.now ≡ true }
    ensures makes { V.tells → MakesCopy (data_of (now (V.calls vol.old))) label.now (V.names vol.old) (V.names vol.new) }
    ensures copied { OnOk result (V.tells → IsCopied (data_of (now (V.calls vol.old))) ((V.names vol.new).copies label.now)) }
    ensures stays { (V.bound vol.new ≡ true) × ((V.names vol.new).told ≡ (V.names vol.old).told) × (V.tells → V.calls vol.new ≡ V.calls vol.old) }
    ensures cause { HasCause (V.faults vol.old) (V.faults vol.new) result }
{
    vol.bind_copy(label)?;
    copy_bound(vol, room)?;
    Ok(())
}
