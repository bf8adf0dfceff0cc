//! The log is read and checked, and nothing is changed.
ghost use Rattle.std.specs.Prelude.{◌≡◌, ◌+◌, ◌≤◌, true, false, length, take, OnOk, IfOk, IfErr, Err, nat_le};
ghost use Rattle.tc_io.specs.Causes.{HasCause};
ghost use Rattle.tc_io.specs.Images.{now};
ghost use Rattle.ud_log.specs.Log.{entries, magic};
ghost use Rattle.ud_log.specs.Scan.{Scanned, ScannedAll};
ghost use Rattle.ud_log.specs.Undo.{agrees, all_formed, broken, nothing, log_of, rule as rule_of};
ghost use Rattle.ud_state.specs.State.{AreLens};
ghost use Rattle.tc_undo.specs.Changes.{KnowsLens};
ghost use Rattle.tc_undo.specs.Errors.{OnBroken};
ghost use Rattle.tc_undo.specs.Found.{AfterScan, GoesOn, HasHeader, IsFound, BreaksAs};
ghost use Rattle.tc_undo.specs.Volumes.{OnlyReads, Blames};

use crate::errors::{RecoverErr, rule};
use tc_base::Fault;
use tc_io::Volume;
use ud_log::{are_short, begins_well, file_at, is_formed, place, read_again, read_head, read_lens};

/// An entry that the scan met: where the next one begins, and whether each so far ends inside its file.
#[derive(Clone, Copy)]
pub struct Seen {
    next: u64,
    fine: bool,
}

/// What recovery finds in the log: whether it undoes something, the lengths that the data files get or have, and where the
/// last whole entry ends.
#[derive(Clone, Copy)]
pub struct Found {
    pub undoes: bool,
    pub lens: [u64; 18],
    pub end: u64,
}

/// Whether so many bytes from a place on end at or before a length.
fn ends_inside(at: u64, size: u64, len: u64) -> bool
    ensures { result ≡ nat_le (at + size) len }
{
    at <= len && size <= len - at
}

/// Looks at the entry that begins at a place of the log, if a whole one does.
fn scan_entry<V: Volume>(
    vol: &mut V,
    lens: &[u64; 18],
    at: u64,
    fine: bool,
    len: u64,
) -> Result<Option<Seen>, RecoverErr>
    requires bound { V.bound vol.old ≡ true }
    requires len { V.tells → len ≡ length (now (V.calls vol.old) 1) }
    requires order { at ≤ len }
    requires scanned { V.tells → Scanned (now (V.calls vol.old) 1) lens.now at fine }
    ensures seen { IfOk result (λ s. V.tells → AfterScan (now (V.calls vol.old) 1) lens.now at fine s) }
    ensures broken { IfErr result (λ e. OnBroken e (λ r. V.tells → (r ≡ rule_of 3) × (all_formed (entries (now (V.calls vol.old) 1)) ≡ false))) }
    ensures next { IfOk result (λ s. GoesOn at len s) }
    ensures reads { OnlyReads V.Volume vol.old vol.new }
    ensures cause { Blames V.Volume result vol.old vol.new }
{
    let left = len - at;
    if left < 20 {
        return Ok(None);
    }
    let mut front = [0u8; 16];
    vol.read(1, at, &mut front)?;
    let head = read_head(&front);
    let size = head.size as u64;
    if size > left - 20 {
        return Ok(None);
    }
    let mut back = [0u8; 4];
    vol.read(1, at + 16 + size, &mut back)?;
    if !is_formed(head.file, head.size, read_again(&back)) {
        return Err(RecoverErr::Broken(rule(3)));
    }
    let inside = ends_inside(head.at, size, lens[place(head.file)]);
    Ok(Some(Seen {
        next: at + 20 + size,
        fine: fine & inside,
    }))
}

/// Goes over all entries from front to back. Answers where the last whole one ends.
fn scan<V: Volume>(vol: &mut V, lens: &[u64; 18], len: u64) -> Result<u64, RecoverErr>
    requires bound { V.bound vol.old ≡ true }
    requires header { HasHeader V.tells (now (V.calls vol.old) 1) len lens.now }
    ensures end { IfOk result (λ end. V.tells → ScannedAll (now (V.calls vol.old) 1) lens.now end true) }
    ensures broken { IfErr result (λ e. OnBroken e (λ r. V.tells → log_of (now (V.calls vol.old) 1) ≡ broken r)) }
    ensures order { IfOk result (λ end. end ≤ len) }
    ensures reads { OnlyReads V.Volume vol.old vol.new }
    ensures cause { Blames V.Volume result vol.old vol.new }
{
    let mut at = 152;
    let mut fine = true;
    'entries: loop {
        match scan_entry(vol, lens, at, fine, len)? {
            None => break,
            Some(seen) => {
                at = seen.next;
                fine = seen.fine;
            }
        }
    }
    if !fine {
        return Err(RecoverErr::Broken(rule(4)));
    }
    Ok(at)
}

/// The lengths of the data files.
fn lens_of_data<V: Volume>(vol: &mut V) -> Result<[u64; 18], Fault>
    requires { V.bound vol.old ≡ true }
    ensures lens { IfOk result (λ lens. V.tells → AreLens lens (now (V.calls vol.old))) }
    ensures reads { OnlyReads V.Volume vol.old vol.new }
    ensures cause { HasCause (V.faults vol.old) (V.faults vol.new) result }
{
    let mut lens = [0u64; 18];
    for i in 0..18 {
        let len = vol.len(file_at(i))?;
        lens[i] = len;
    }
    Ok(lens)
}

/// Reads the magic word and the lengths, as far as they are there.
fn front_of<V: Volume>(vol: &mut V, len: u64) -> Result<[u8; 152], RecoverErr>
    requires bound { V.bound vol.old ≡ true }
    requires len { V.tells → len ≡ length (now (V.calls vol.old) 1) }
    ensures front { IfOk result (λ head. V.tells → 152 ≤ len → head ≡ take 152 (now (V.calls vol.old) 1)) }
    ensures magic { OnOk result (V.tells → agrees magic (now (V.calls vol.old) 1) ≡ true) }
    ensures broken { IfErr result (λ e. OnBroken e (λ r. V.tells → log_of (now (V.calls vol.old) 1) ≡ broken r)) }
    ensures reads { OnlyReads V.Volume vol.old vol.new }
    ensures cause { Blames V.Volume result vol.old vol.new }
{
    let mut head = [0u8; 152];
    let n = len.min(152) as usize;
    vol.read(1, 0, &mut head[..n])?;
    if !begins_well(&head[..n]) {
        return Err(RecoverErr::Broken(rule(1)));
    }
    Ok(head)
}

/// The lengths of the data files under a log that undoes nothing.
fn as_they_are<V: Volume>(vol: &mut V) -> Result<[u64; 18], RecoverErr>
    requires bound { V.bound vol.old ≡ true }
    requires log { V.tells → log_of (now (V.calls vol.old) 1) ≡ nothing }
    ensures lens { IfOk result (λ lens. KnowsLens V.tells (now (V.calls vol.old)) lens) }
    ensures broken { IfErr result (BreaksAs V.tells (V.calls vol.old)) }
    ensures reads { OnlyReads V.Volume vol.old vol.new }
    ensures cause { Blames V.Volume result vol.old vol.new }
{
    let lens = lens_of_data(vol)?;
    if !are_short(&lens) {
        return Err(RecoverErr::Broken(rule(5)));
    }
    Ok(lens)
}

/// Reads the log of so many bytes and checks it, rule by rule.
pub fn look<V: Volume>(vol: &mut V, len: u64) -> Result<Found, RecoverErr>
    requires bound { V.bound vol.old ≡ true }
    requires len { V.tells → len ≡ length (now (V.calls vol.old) 1) }
    ensures found { IfOk result (λ f. IsFound V.tells (now (V.calls vol.old)) f) }
    ensures order { IfOk result (λ f. f.end ≤ len) }
    ensures broken { IfErr result (BreaksAs V.tells (V.calls vol.old)) }
    ensures reads { OnlyReads V.Volume vol.old vol.new }
    ensures cause { Blames V.Volume result vol.old vol.new }
{
    let head = front_of(vol, len)?;
    if len < 152 {
        let lens = as_they_are(vol)?;
        return Ok(Found {
            undoes: false,
            lens,
            end: 0,
        });
    }
    let lens = read_lens(&head);
    if !are_short(&lens) {
        return Err(RecoverErr::Broken(rule(2)));
    }
    let end = scan(vol, &lens, len)?;
    Ok(Found {
        undoes: true,
        lens,
        end,
    })
}
