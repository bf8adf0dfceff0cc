//! Tests on the bytes and the numbers of a log.
ghost use Rattle.std.specs.Prelude.{◌≡◌, ◌&&◌, nat_le, nat_eq};
ghost use Rattle.ud_log.specs.Log.{magic};
ghost use Rattle.ud_log.specs.Undo.{agrees, all_short, is_data};

use tc_base::FILE_MOST;

const MAGIC: [u8; 8] = [84, 75, 117, 110, 100, 111, 48, 49];

/// Whether bytes agree with the magic word as far as both go.
pub fn begins_well(bytes: &[u8]) -> bool
    ensures { result ≡ agrees magic bytes.now }
{
    for i in 0..8 {
        if i < bytes.len() && bytes[i] != MAGIC[i] {
            return false;
        }
    }
    true
}

/// Whether each length is at most 2^40 bytes.
pub fn are_short(lens: &[u64; 18]) -> bool
    ensures { result ≡ all_short lens.now }
{
    for len in lens {
        if *len > FILE_MOST {
            return false;
        }
    }
    true
}

/// Whether an entry names a data file, has a size from 1 to 4096, and says the same size again.
pub fn is_formed(file: u32, size: u32, again: u32) -> bool
    ensures { result ≡ (is_data file && nat_le 1 size && nat_le size 4096 && nat_eq again size) }
{
    (file == 0 || (2 <= file && file <= 18)) && 1 <= size && size <= 4096 && again == size
}
