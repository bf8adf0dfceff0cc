//! Varying numbers: one to ten bytes for a number below 2^64.
ghost use Rattle.std.specs.Prelude.{◌≡◌, ℕ, ◌+◌, ◌*◌, ◌^◌, ◌<◌, ◌≤◌, ◌↔◌, ◌++◌, ◌∷◌, List, length, take, IfOk, OnOk, OnErr, Ok, Err};
ghost use Rattle.tc_base.specs.Vnum.{vnum, vnum_at, vnum_front, two_front, three_front, ended, IsShort, IsSecond, IsWide};
ghost use Rattle.tc_base.specs.Reading.{Gives};

use crate::blob::Blob;
use crate::fields::NotWhole;
use std::alloc::AllocError;
use thiserror::Error;

/// Why no number is read.
#[derive(Clone, Copy, Debug, PartialEq, Eq, Error)]
pub enum NumErr {
    /// Fewer than ten bytes stand there, and none of them ends a number.
    #[error("the number is cut short")]
    Short,
    /// A spelling of two bytes or more ends in group 0: the number has a shorter one.
    #[error("the number has a second spelling")]
    Second,
    /// The number isn't below 2^64.
    #[error("the number is too wide")]
    Wide,
}

// The number that byte `last` ends, where the groups before it make `low`, each one worth `scale` times its own.
fn end(behind: usize, last: u8, low: u64, scale: u64) -> Result<(u64, usize), NumErr>
    requires few { behind < 10 }
    requires ends { last < 128 }
    requires scale { scale ≡ 128 ^ behind }
    requires low { low < scale }
    ensures read { result ≡ ended behind last (low + last * scale) }
    ensures len { IfOk result (λ x. x.1 ≡ behind + 1) }
{
    if behind > 0 && last == 0 {
        return Err(NumErr::Second);
    }
    if behind == 9 && last > 1 {
        return Err(NumErr::Wide);
    }
    Ok((low + u64::from(last) * scale, behind + 1))
}

// The number at the front, as the definition of reading says.
fn scan(bytes: &[u8]) -> Result<(u64, usize), NumErr>
    ensures read { result ≡ vnum_at bytes.now }
    ensures within { IfOk result (λ x. x.1 ≤ length bytes.now) }
{
    let mut low: u64 = 0;
    let mut scale: u64 = 1;
    for i in 0..9 {
        if i == bytes.len() {
            return Err(NumErr::Short);
        }
        let b = bytes[i];
        if b < 128 {
            return end(i, b, low, scale);
        }
        low += u64::from(255 - b) * scale;
        scale *= 128;
    }
    if bytes.len() == 9 {
        return Err(NumErr::Short);
    }
    if bytes[9] >= 128 {
        return Err(NumErr::Wide);
    }
    end(9, bytes[9], low, scale)
}

// The number at the front: most have one byte, which is read at once.
fn scan_front(bytes: &[u8]) -> Result<(u64, usize), NumErr>
    ensures read { result ≡ vnum_at bytes.now }
    ensures within { IfOk result (λ x. x.1 ≤ length bytes.now) }
{
    if bytes.len() > 0 {
        let b = bytes[0];
        if b < 128 {
            return Ok((u64::from(b), 1));
        }
    }
    scan(bytes)
}

/// The number whose spelling stands at the front of the bytes, and how many bytes that is. Each number has one spelling,
/// and none is the front of another's.
pub fn read_vnum(bytes: &[u8]) -> Result<(u64, usize), NumErr>
    ensures found { IfOk result (λ x. (x.0 < 2 ^ 64) × (x.1 ≡ length (vnum x.0)) × (take x.1 bytes.now ≡ vnum x.0)) }
    ensures again { (n : ℕ) (rest : List ℕ) → n < 2 ^ 64 → bytes.now ≡ vnum n ++ rest → result ≡ Ok (n, length (vnum n)) }
    ensures short { (result ≡ Err NumErr.Short) ↔ IsShort bytes.now }
    ensures second { (result ≡ Err NumErr.Second) ↔ IsSecond bytes.now }
    ensures wide { (result ≡ Err NumErr.Wide) ↔ IsWide bytes.now }
    ensures no_front { (m n : ℕ) (rest : List ℕ) → m < 2 ^ 64 → n < 2 ^ 64 → vnum n ≡ vnum m ++ rest → m ≡ n }
{
    scan_front(bytes)
}

// A number of one byte at the front, and what is behind it.
fn of_one<'a>(last: u8, bytes: &'a [u8], rest: &'a [u8]) -> (u64, &'a [u8])
    requires are { bytes.now ≡ last ∷ rest.now }
    requires last { last < 128 }
    ensures { vnum_front bytes.now ≡ Ok (result.0, result.1.now) }
{
    (u64::from(last), rest)
}

// A number of two bytes at the front, and what is behind it.
fn of_two<'a>(first: u8, last: u8, bytes: &'a [u8], rest: &'a [u8]) -> (u64, &'a [u8])
    requires are { bytes.now ≡ first ∷ last ∷ rest.now }
    requires first { 128 ≤ first }
    requires last { (0 < last) × (last < 128) }
    ensures { vnum_front bytes.now ≡ Ok (result.0, result.1.now) }
{
    (u64::from(255 - first) + 128 * u64::from(last), rest)
}

// A number of three bytes at the front, and what is behind it.
fn of_three<'a>(first: u8, second: u8, last: u8, bytes: &'a [u8], rest: &'a [u8]) -> (u64, &'a [u8])
    requires are { bytes.now ≡ first ∷ second ∷ last ∷ rest.now }
    requires tops { (128 ≤ first) × (128 ≤ second) }
    requires last { (0 < last) × (last < 128) }
    ensures { vnum_front bytes.now ≡ Ok (result.0, result.1.now) }
{
    let high = u64::from(255 - second) + 128 * u64::from(last);
    (u64::from(255 - first) + 128 * high, rest)
}

// The number at the front, and what is behind it, by the definition of reading.
fn read_any(bytes: &[u8]) -> Result<(u64, &[u8]), NotWhole>
    ensures { Gives (λ x. (x.0, x.1.now)) result (vnum_front bytes.now) }
{
    match scan(bytes) {
        Ok((n, len)) => Ok((n, &bytes[len..])),
        Err(NumErr::Short) => Err(NotWhole::Part),
        Err(NumErr::Second) => Err(NotWhole::Bad),
        Err(NumErr::Wide) => Err(NotWhole::Bad),
    }
}

// A number of more bytes than one, or none: two and three are read at once.
#[inline(never)]
fn read_long(bytes: &[u8]) -> Result<(u64, &[u8]), NotWhole>
    ensures { Gives (λ x. (x.0, x.1.now)) result (vnum_front bytes.now) }
{
    if let [first, last, rest @ ..] = bytes {
        if *first >= 128 && *last > 0 && *last < 128 {
            return Ok(of_two(*first, *last, bytes, rest));
        }
    }
    if let [first, second, last, rest @ ..] = bytes {
        if *first >= 128 && *second >= 128 && *last > 0 && *last < 128 {
            return Ok(of_three(*first, *second, *last, bytes, rest));
        }
    }
    read_any(bytes)
}

/// The number whose spelling stands at the front of the bytes, and the bytes behind it.
#[inline]
pub fn read_number(bytes: &[u8]) -> Result<(u64, &[u8]), NotWhole>
    ensures { Gives (λ x. (x.0, x.1.now)) result (vnum_front bytes.now) }
{
    // most numbers have one byte
    if let [last, rest @ ..] = bytes {
        if *last < 128 {
            return Ok(of_one(*last, bytes, rest));
        }
    }
    read_long(bytes)
}

/// Two numbers, one behind the other, and the bytes behind them.
#[tactic(auto, unfolding(crate::specs::Vnum::two_front))]
pub fn read_two(bytes: &[u8]) -> Result<(u64, u64, &[u8]), NotWhole>
    ensures { Gives (λ x. ((x.0, x.1), x.2.now)) result (two_front bytes.now) }
{
    let (a, rest) = read_number(bytes)?;
    let (b, rest) = read_number(rest)?;
    Ok((a, b, rest))
}

/// Three numbers, one behind the other, and the bytes behind them.
#[tactic(auto, unfolding(crate::specs::Vnum::three_front))]
pub fn read_three(bytes: &[u8]) -> Result<(u64, u64, u64, &[u8]), NotWhole>
    ensures { Gives (λ x. ((x.0, (x.1, x.2)), x.3.now)) result (three_front bytes.now) }
{
    let (a, rest) = read_number(bytes)?;
    let (b, rest) = read_number(rest)?;
    let (c, rest) = read_number(rest)?;
    Ok((a, b, c, rest))
}

// The spelling in a buffer, and its length.
fn spell(mut n: u64) -> ([u8; 10], usize)
    ensures long { result.1 ≡ length (vnum n) }
    ensures few { length (vnum n) ≤ 10 }
    ensures bytes { take result.1 result.0 ≡ vnum n }
{
    let mut buffer = [0; 10];
    for i in 0..9 {
        if n < 128 {
            buffer[i] = n as u8;
            return (buffer, i + 1);
        }
        buffer[i] = 255 - (n % 128) as u8;
        n /= 128;
    }
    buffer[9] = n as u8;
    (buffer, 10)
}

/// The number of bytes of a spelling, 1 to 10.
pub fn vnum_len(n: u64) -> usize
    ensures { result ≡ length (vnum n) }
{
    if n < 128 {
        return 1;
    }
    spell(n).1
}

/// Adds the spelling of a number behind the bytes. An `Err` changes nothing.
pub fn put_vnum(n: u64, into: &mut Blob) -> Result<(), AllocError>
    ensures ok { OnOk result (into.new ≡ into.old ++ vnum n) }
    ensures err { OnErr result (into.new ≡ into.old) }
{
    if n < 128 {
        return into.push(n as u8);
    }
    let (buffer, len) = spell(n);
    into.append(&buffer[..len])
}
