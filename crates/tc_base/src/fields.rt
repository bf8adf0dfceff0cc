//! Fields of a text of bytes, read from left to right.
ghost use Rattle.std.specs.Prelude.{◌≡◌, ◌<◌, ◌≤◌, ◌^◌, slice_index, IfOk};
ghost use Rattle.tc_base.specs.Reading.{Gives, size_at, bytes_at};

/// Why no whole value stands at the front of bytes.
#[derive(Clone, Copy, Debug, PartialEq, Eq)]
pub enum NotWhole {
    /// More bytes can make it whole.
    Part,
    /// No bytes behind it can.
    Bad,
}

// The byte there, or 0 past the end.
fn byte_or_zero(bytes: &[u8], i: usize) -> u8
    ensures { result ≡ slice_index bytes.now i }
{
    if i < bytes.len() { bytes[i] } else { 0 }
}

/// Four bytes, the greatest first, of a number that is at most `limit`, and the bytes behind them. Where fewer than four
/// stand there, the missing ones count as zeros: the least number that they can come to be.
pub fn read_size(limit: usize, bytes: &[u8]) -> Result<(usize, &[u8]), NotWhole>
    ensures size { Gives (λ x. (x.0, x.1.now)) result (size_at limit bytes.now) }
    ensures small { IfOk result (λ x. (x.0 ≤ limit) × (x.0 < 2 ^ 32)) }
{
    let least = u32::from_be_bytes([
        byte_or_zero(bytes, 0),
        byte_or_zero(bytes, 1),
        byte_or_zero(bytes, 2),
        byte_or_zero(bytes, 3),
    ]) as usize;
    if least > limit {
        return Err(NotWhole::Bad);
    }
    if bytes.len() < 4 {
        return Err(NotWhole::Part);
    }
    Ok((least, &bytes[4..]))
}

/// That many bytes, and those behind them.
pub fn read_bytes(n: usize, bytes: &[u8]) -> Result<(&[u8], &[u8]), NotWhole>
    ensures { Gives (λ x. (x.0.now, x.1.now)) result (bytes_at n bytes.now) }
{
    if bytes.len() < n {
        return Err(NotWhole::Part);
    }
    Ok(bytes.split_at(n))
}
