//! The ids that keys name, by the least and the greatest id held.
ghost use Rattle.std.specs.Prelude.{◌≡◌, false};
ghost use Rattle.tc_model.specs.Texts.{is_number};
ghost use Rattle.tc_fixeddb.specs.Naming.{all_named, id_by, least_with, number_by};

use crate::numbers::number_of;
use tc_base::Pair;

// The number that a word names, and 0 of another key that spells no number.
fn number_of_word(least: u64, greatest: u64, key: &[u8]) -> u128
    requires { is_number 20 key.now ≡ false }
    ensures { result ≡ number_by least greatest key.now }
{
    if key == b"min".as_slice() {
        return u128::from(least);
    }
    if key == b"max".as_slice() {
        return u128::from(greatest);
    }
    if key == b"prev".as_slice() {
        return u128::from(least.saturating_sub(1));
    }
    if key == b"next".as_slice() {
        return u128::from(greatest) + 1;
    }
    0
}

/// The number that a key names: one of four words, or one to twenty digits. 0 of any other key.
pub fn number_named(least: u64, greatest: u64, key: &[u8]) -> u128
    ensures { result ≡ number_by least greatest key.now }
{
    match number_of(key) {
        Some(n) => n,
        None => number_of_word(least, greatest, key),
    }
}

/// The id that a key names: from 1 to the greatest allowed.
pub fn id_named(most: u64, least: u64, greatest: u64, key: &[u8]) -> Option<u64>
    ensures { result ≡ id_by most least greatest key.now }
{
    let n = number_named(least, greatest, key);
    if 1 <= n && n <= u128::from(most) {
        Some(n as u64)
    } else {
        None
    }
}

/// The least id once another is held, where 0 stands for none.
pub fn least_with(least: u64, id: u64) -> u64
    ensures { result ≡ least_with least id }
{
    if least == 0 { id } else { least.min(id) }
}

/// Whether each key names an id when its turn comes, with those before it held.
pub fn all_named(most: u64, least: u64, greatest: u64, pairs: &[Pair]) -> bool
    ensures { result ≡ all_named most least greatest pairs.now }
{
    let mut least = least;
    let mut greatest = greatest;
    for pair in pairs {
        let Some(id) = id_named(most, least, greatest, pair.key.as_slice()) else {
            return false;
        };
        least = least_with(least, id);
        greatest = greatest.max(id);
    }
    true
}
