//! Which bytes are one whole updating request.
ghost use Rattle.std.specs.Prelude.{◌≡◌, ◌↔◌, true, false, length, is_some, IfOk, OnErr, IsTrue};
ghost use Rattle.ty_wire.specs.Taking.{Takes};
ghost use Rattle.ty_ulog.specs.Pieces.{command_of, told_by};
ghost use Rattle.ty_ulog.specs.Updates.{IsUpdating, update_in};

use std::alloc::{AllocError, Global};
use ty_wire::{Front, is_updating, read_request, take};

// The commands whose requests update. Of a misc its name decides.
const UPDATING: [u8; 8] = [0x10, 0x11, 0x12, 0x13, 0x18, 0x20, 0x60, 0x72];

const MISC: u8 = 0x90;

// Whether bytes are one whole request, and no more.
fn is_alone(bytes: &[u8]) -> bool
    ensures yes { result ≡ true → Takes bytes.now (Front.Whole (length bytes.now)) }
    ensures no { result ≡ false → IsUpdating bytes.now → ⊥ }
    ensures none { result ≡ false → is_some (update_in bytes.now) ≡ false }
{
    match take(bytes) {
        Front::Whole(n) => n == bytes.len(),
        Front::Part => false,
        Front::Bad => false,
    }
}

fn command_of(bytes: &[u8]) -> u8
    ensures { result ≡ command_of bytes.now }
{
    match bytes {
        [_, command, ..] => *command,
        _ => 0,
    }
}

// Whether a request of this command updates, where the command tells.
fn told_by(command: u8) -> Option<bool>
    ensures { result ≡ told_by command }
{
    if command == MISC {
        return None;
    }
    Some(UPDATING.contains(&command))
}

/// Whether bytes are one whole updating request, and no more. It takes memory for a misc alone, which it copies: 24 bytes an argument besides its text.
pub fn is_update(alloc: Global, bytes: &[u8]) -> Result<bool, AllocError>
    ensures updating { IfOk result (λ b. IsTrue b ↔ IsUpdating bytes.now) }
    ensures told { IfOk result (λ b. b ≡ is_some (update_in bytes.now)) }
    ensures wanting { OnErr result (command_of bytes.now ≡ 0x90) }
{
    if !is_alone(bytes) {
        return Ok(false);
    }
    if let Some(updates) = told_by(command_of(bytes)) {
        return Ok(updates);
    }
    let request = read_request(alloc, bytes)?;
    Ok(is_updating(&request))
}
