//! What the heads of all types have in common.
ghost use Rattle.std.specs.Prelude.{◌≡◌, ◌↔◌, ◌≤◌, IsTrue};
ghost use Rattle.tc_base.specs.Endian.{le_number, le_bytes};
ghost use Rattle.tc_base.specs.Files.{wrote};
ghost use Rattle.hf_head.specs.Layout.{HasMagic};

use tc_base::set_le;

pub const MAGIC: &[u8; 13] = b"ToKyO CaBiNeT";

/// Whether bytes begin with the magic.
pub fn has_magic(bytes: &[u8; 256]) -> bool
    ensures { IsTrue result ↔ HasMagic bytes.now }
{
    &bytes[..13] == MAGIC.as_slice()
}

/// Writes a number into the eight bytes at a place.
pub fn put_number(bytes: &mut [u8; 256], at: usize, n: u64)
    requires { at ≤ 248 }
    ensures after { bytes.new ≡ wrote at (le_bytes 8 n) bytes.old }
    ensures read_back { le_number (le_bytes 8 n) ≡ n }
{
    set_le(bytes, at, 8, n);
}

/// Writes a number into the four bytes at a place.
pub fn put_width(bytes: &mut [u8; 256], at: usize, n: u32)
    requires { at ≤ 252 }
    ensures after { bytes.new ≡ wrote at (le_bytes 4 n) bytes.old }
    ensures read_back { le_number (le_bytes 4 n) ≡ n }
{
    set_le(bytes, at, 4, u64::from(n));
}
