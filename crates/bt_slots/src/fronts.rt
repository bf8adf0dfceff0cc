//! What stands at the front of any bytes.
ghost use Rattle.std.specs.Prelude.{◌≡◌, ℕ, ◌-◌, ◌<◌, ◌≤◌, ◌^◌, ◌++◌, ◌∷◌, List, length, drop, take};
ghost use Rattle.tc_base.specs.Vnum.{tops, vnum};
ghost use Rattle.bt_slots.specs.Reads.{item_in, entry_in, number_in, second_in, third_in};

use tc_base::read_number;

/// The number at the front, and what is behind it; 0 and no bytes where none stands there.
pub(crate) fn number(bytes: &[u8]) -> (u64, &[u8])
    ensures { (result.0, result.1.now) ≡ number_in bytes.now }
{
    match read_number(bytes) {
        Ok((n, rest)) => (n, rest),
        Err(_) => (0, &bytes[..0]),
    }
}

/// So many bytes at the front, all where there are no more, and those behind them.
pub(crate) fn cut(n: u64, bytes: &[u8]) -> (&[u8], &[u8])
    ensures { (result.0.now ≡ take n bytes.now) × (result.1.now ≡ drop n bytes.now) }
{
    if n >= bytes.len() as u64 {
        return (bytes, &bytes[bytes.len()..]);
    }
    bytes.split_at(n as usize)
}

/// The bytes from a place on.
pub(crate) fn rest_from(bytes: &[u8], at: usize) -> &[u8]
    requires { at ≤ length bytes.now }
    ensures is { result.now ≡ drop at bytes.now }
    ensures short { length result.now < 2 ^ 64 }
{
    &bytes[at..]
}

/// The bytes from one place to another.
pub(crate) fn between(bytes: &[u8], from: usize, to: usize) -> &[u8]
    requires order { from ≤ to }
    requires inside { to ≤ length bytes.now }
    ensures { result.now ≡ take (to - from) (drop from bytes.now) }
{
    &bytes[from..to]
}

// Three numbers of one byte each at the front, and what is behind them.
fn small_head<'a>(
    key: u8,
    first: u8,
    more: u8,
    bytes: &'a [u8],
    rest: &'a [u8],
) -> (u64, u64, u64, &'a [u8])
    requires are { bytes.now ≡ key ∷ first ∷ more ∷ rest.now }
    requires small { (key < 128) × (first < 128) × (more < 128) }
    ensures key { result.0 ≡ (number_in bytes.now).0 }
    ensures first { result.1 ≡ (second_in bytes.now).0 }
    ensures more { (result.2, result.3.now) ≡ third_in bytes.now }
{
    (u64::from(key), u64::from(first), u64::from(more), rest)
}

/// The three numbers at the front of an item, the sizes of its key and of its first value and how many further values it has, and what is behind them.
pub(crate) fn item_head(bytes: &[u8]) -> (u64, u64, u64, &[u8])
    ensures key { result.0 ≡ (number_in bytes.now).0 }
    ensures first { result.1 ≡ (second_in bytes.now).0 }
    ensures more { (result.2, result.3.now) ≡ third_in bytes.now }
{
    // most sizes have one byte
    if let [key, first, more, rest @ ..] = bytes {
        if *key < 128 && *first < 128 && *more < 128 {
            return small_head(*key, *first, *more, bytes, rest);
        }
    }
    let (key, rest) = number(bytes);
    let (first, rest) = number(rest);
    let (more, rest) = number(rest);
    (key, first, more, rest)
}

/// The key of the item at the front.
pub(crate) fn item_key(bytes: &[u8]) -> &[u8]
    ensures { result.now ≡ (item_in bytes.now).0.key }
{
    let (key, _, _, rest) = item_head(bytes);
    cut(key, rest).0
}

// How many bytes at the front have their top bit.
fn count_tops(bytes: &[u8]) -> usize
    ensures count { result ≡ tops bytes.now }
    ensures short { length bytes.now < 2 ^ 64 }
{
    for i in 0..bytes.len() {
        if bytes[i] < 128 {
            return i;
        }
    }
    bytes.len()
}

// What is behind the number at the front.
fn behind_number(bytes: &[u8]) -> &[u8]
    requires { (n : ℕ) × (rest : List ℕ) × (n < 2 ^ 64) × (bytes.now ≡ vnum n ++ rest) }
    ensures { result.now ≡ (number_in bytes.now).1 }
{
    // it ends at the first byte without its top bit
    rest_from(bytes, count_tops(bytes) + 1)
}

/// The key of the entry at the front, where a number stands there.
pub(crate) fn entry_key(bytes: &[u8]) -> &[u8]
    requires { (n : ℕ) × (rest : List ℕ) × (n < 2 ^ 64) × (bytes.now ≡ vnum n ++ rest) }
    ensures { result.now ≡ (entry_in bytes.now).0.key }
{
    let (size, rest) = number(behind_number(bytes));
    cut(size, rest).0
}
