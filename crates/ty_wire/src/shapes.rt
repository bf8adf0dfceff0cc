//! The fields of requests, by their shapes.
ghost use Rattle.std.specs.Prelude.{[], ◌∷◌};
ghost use Rattle.tc_base.specs.Reading.{Gives, size_at};
ghost use Rattle.ty_wire.specs.Form.{word, long};
ghost use Rattle.ty_wire.specs.Spelling.{key_text, value_text};
ghost use Rattle.ty_wire.specs.Reading.{values_at, long_at};

use tc_base::{KEY_MOST, NotWhole, VALUE_MOST, read_bytes, read_size};

/// What a field gives: its value and the bytes behind it.
pub type Read<'a, T> = Result<(T, &'a [u8]), NotWhole>;

/// A number of four bytes.
pub fn word_of(bytes: &[u8]) -> Read<'_, u32>
    ensures { Gives (λ x. (x.0, x.1.now)) result (size_at 4294967295 bytes.now) }
{
    let (n, rest) = read_size(4_294_967_295, bytes)?;
    Ok((n as u32, rest))
}

/// A number of eight bytes.
pub fn long_of(bytes: &[u8]) -> Read<'_, u64>
    ensures { Gives (λ x. (x.0, x.1.now)) result (long_at bytes.now) }
{
    let (upper, rest) = word_of(bytes)?;
    let (lower, rest) = word_of(rest)?;
    Ok((upper as u64 * 4_294_967_296 + lower as u64, rest))
}

pub fn key_of(bytes: &[u8]) -> Read<'_, &[u8]>
    ensures { Gives (λ x. ((x.0.now, tt), x.1.now)) result (values_at (key_text ∷ []) bytes.now) }
{
    let (k, rest) = read_size(KEY_MOST, bytes)?;
    read_bytes(k, rest)
}

pub fn pair_of(bytes: &[u8]) -> Read<'_, (&[u8], &[u8])>
    ensures { Gives (λ x. ((x.0.0.now, (x.0.1.now, tt)), x.1.now)) result (values_at (key_text ∷ value_text ∷ []) bytes.now) }
{
    let (k, rest) = read_size(KEY_MOST, bytes)?;
    let (v, rest) = read_size(VALUE_MOST, rest)?;
    let (key, rest) = read_bytes(k, rest)?;
    let (value, rest) = read_bytes(v, rest)?;
    Ok(((key, value), rest))
}

pub fn shift_of(bytes: &[u8]) -> Read<'_, (&[u8], &[u8], u32)>
    ensures { Gives (λ x. ((x.0.0.now, (x.0.1.now, (x.0.2, tt))), x.1.now)) result (values_at (key_text ∷ value_text ∷ word ∷ []) bytes.now) }
{
    let (k, rest) = read_size(KEY_MOST, bytes)?;
    let (v, rest) = read_size(VALUE_MOST, rest)?;
    let (width, rest) = word_of(rest)?;
    let (key, rest) = read_bytes(k, rest)?;
    let (value, rest) = read_bytes(v, rest)?;
    Ok(((key, value, width), rest))
}

pub fn key_word_of(bytes: &[u8]) -> Read<'_, (&[u8], u32)>
    ensures { Gives (λ x. ((x.0.0.now, (x.0.1, tt)), x.1.now)) result (values_at (key_text ∷ word ∷ []) bytes.now) }
{
    let (k, rest) = read_size(KEY_MOST, bytes)?;
    let (number, rest) = word_of(rest)?;
    let (key, rest) = read_bytes(k, rest)?;
    Ok(((key, number), rest))
}

pub fn key_longs_of(bytes: &[u8]) -> Read<'_, (&[u8], u64, u64)>
    ensures { Gives (λ x. ((x.0.0.now, (x.0.1, (x.0.2, tt))), x.1.now)) result (values_at (key_text ∷ long ∷ long ∷ []) bytes.now) }
{
    let (k, rest) = read_size(KEY_MOST, bytes)?;
    let (integer, rest) = long_of(rest)?;
    let (fraction, rest) = long_of(rest)?;
    let (key, rest) = read_bytes(k, rest)?;
    Ok(((key, integer, fraction), rest))
}

pub fn ext_of(bytes: &[u8]) -> Read<'_, (&[u8], u32, &[u8], &[u8])>
    ensures { Gives (λ x. ((x.0.0.now, (x.0.1, (x.0.2.now, (x.0.3.now, tt)))), x.1.now)) result (values_at (key_text ∷ word ∷ key_text ∷ value_text ∷ []) bytes.now) }
{
    let (n, rest) = read_size(KEY_MOST, bytes)?;
    let (options, rest) = word_of(rest)?;
    let (k, rest) = read_size(KEY_MOST, rest)?;
    let (v, rest) = read_size(VALUE_MOST, rest)?;
    let (name, rest) = read_bytes(n, rest)?;
    let (key, rest) = read_bytes(k, rest)?;
    let (value, rest) = read_bytes(v, rest)?;
    Ok(((name, options, key, value), rest))
}

pub fn restore_of(bytes: &[u8]) -> Read<'_, (&[u8], u64, u32)>
    ensures { Gives (λ x. ((x.0.0.now, (x.0.1, (x.0.2, tt))), x.1.now)) result (values_at (key_text ∷ long ∷ word ∷ []) bytes.now) }
{
    let (p, rest) = read_size(KEY_MOST, bytes)?;
    let (timestamp, rest) = long_of(rest)?;
    let (options, rest) = word_of(rest)?;
    let (path, rest) = read_bytes(p, rest)?;
    Ok(((path, timestamp, options), rest))
}

pub fn master_of(bytes: &[u8]) -> Read<'_, (&[u8], u32, u64, u32)>
    ensures { Gives (λ x. ((x.0.0.now, (x.0.1, (x.0.2, (x.0.3, tt)))), x.1.now)) result (values_at (key_text ∷ word ∷ long ∷ word ∷ []) bytes.now) }
{
    let (h, rest) = read_size(KEY_MOST, bytes)?;
    let (port, rest) = word_of(rest)?;
    let (timestamp, rest) = long_of(rest)?;
    let (options, rest) = word_of(rest)?;
    let (host, rest) = read_bytes(h, rest)?;
    Ok(((host, port, timestamp, options), rest))
}

pub fn repl_of(bytes: &[u8]) -> Read<'_, (u64, u32)>
    ensures { Gives (λ x. ((x.0.0, (x.0.1, tt)), x.1.now)) result (values_at (long ∷ word ∷ []) bytes.now) }
{
    let (timestamp, rest) = long_of(bytes)?;
    let (server, rest) = word_of(rest)?;
    Ok(((timestamp, server), rest))
}
