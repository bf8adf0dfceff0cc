//! The keys that the records of pages have.
ghost use Rattle.std.specs.Prelude.{◌≡◌, ◌↔◌, ◌≤◌, ◌<◌, ◌+◌, ◌-◌, ◌*◌, ◌^◌, ◌++◌, ◌∷◌, ℕ, List, OnOk, OnErr, IfSome, IsTrue, Some, drop, length};
ghost use Rattle.bt_page.specs.Keys.{hex, hex_digit, key_of, digit_value, hex_number};

use std::alloc::AllocError;
use tc_base::{Blob, PAGE_END};

fn hex_digit(d: u8) -> u8
    requires { d < 16 }
    ensures { result ≡ hex_digit d }
{
    if d < 10 { b'0' + d } else { b'a' - 10 + d }
}

// The digits at the end of a buffer, and where they begin.
fn hex_at_end(mut n: u64) -> ([u8; 17], usize)
    ensures some { 1 ≤ result.1 }
    ensures within { result.1 ≤ 16 }
    ensures long { length result.0 ≡ 17 }
    ensures digits { drop result.1 result.0 ≡ hex n }
{
    let mut buffer = [0; 17];
    for i in 0..15 {
        if n < 16 {
            buffer[16 - i] = hex_digit(n as u8);
            return (buffer, 16 - i);
        }
        buffer[16 - i] = hex_digit((n % 16) as u8);
        n /= 16;
    }
    buffer[1] = hex_digit(n as u8);
    (buffer, 1)
}

// The key of an id at the end of a buffer, and where it begins.
#[tactic(auto, using(crate::proofs::Hex::low_spelled, crate::proofs::Hex::high_spelled))]
fn key_at_end(id: u64) -> ([u8; 17], usize)
    ensures within { result.1 ≤ 16 }
    ensures long { length result.0 ≡ 17 }
    ensures key { drop result.1 result.0 ≡ key_of id }
{
    if id < PAGE_END {
        return hex_at_end(id);
    }
    let (mut buffer, at) = hex_at_end(id - PAGE_END);
    buffer[at - 1] = b'#';
    (buffer, at - 1)
}

/// Adds the key of a page's record behind the bytes. The id is that of a leaf, below 2^48, or that of a node with 2^48 added to it. The key is
/// the leaf's id in lower-case hexadecimal without leading zeros, or `#` and the node's in the same spelling: 1 to 17 bytes. An `Err` changes nothing.
pub fn page_key(id: u64, into: &mut Blob) -> Result<(), AllocError>
    ensures ok { OnOk result (into.new ≡ into.old ++ key_of id) }
    ensures err { OnErr result (into.new ≡ into.old) }
{
    let (buffer, at) = key_at_end(id);
    into.append(&buffer[at..])
}

fn is_key(key: &[u8], id: u64) -> bool
    ensures { IsTrue result ↔ (key.now ≡ key_of id) }
{
    let (buffer, at) = key_at_end(id);
    key == &buffer[at..]
}

// The digit that a byte is; of a byte that is none, any.
fn digit_value(b: u8) -> u64
    ensures { result ≡ digit_value b }
{
    let value = if b < 58 {
        b.saturating_sub(48)
    } else {
        b.saturating_sub(87)
    };
    u64::from(value.min(15))
}

// The number of at most twelve digits.
fn hex_number(digits: &[u8]) -> u64
    requires { length digits.now < 13 }
    ensures value { result ≡ hex_number digits.now }
    ensures most { result < 2 ^ 48 }
{
    let mut n: u64 = 0;
    for b in digits {
        n = n * 16 + digit_value(*b);
    }
    n
}

// The one id below 2^49 whose key this can be.
fn id_in(key: &[u8]) -> u64
    ensures most { result < 2 ^ 49 }
    ensures id { (id : ℕ) → id < 2 ^ 49 → key.now ≡ key_of id → result ≡ id }
{
    if key.is_empty() {
        return 0;
    }
    if key.len() > 13 {
        return 0;
    }
    if key[0] == b'#' {
        return PAGE_END + hex_number(&key[1..]);
    }
    if key.len() > 12 {
        return 0;
    }
    hex_number(key)
}

/// The id below 2^49 whose record has this key: below 2^48 that of a leaf, else that of a node with 2^48 added to it. None where it is the key of none.
pub fn page_id(key: &[u8]) -> Option<u64>
    ensures found { IfSome result (λ id. (id < 2 ^ 49) × (key.now ≡ key_of id)) }
    ensures again { (id : ℕ) → id < 2 ^ 49 → key.now ≡ key_of id → result ≡ Some id }
{
    // what is the key of no page is not that of this number either
    let id = id_in(key);
    if is_key(key, id) { Some(id) } else { None }
}
