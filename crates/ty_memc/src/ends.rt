//! Where lines and values end.
ghost use Rattle.std.specs.Prelude.{◌≡◌, ◌≤◌, ◌<◌, ◌+◌, ℕ, List, length, min, take, drop, suc, MatchOption};
ghost use Rattle.tc_base.specs.Reading.{Gives};
ghost use Rattle.ty_memc.specs.Reading.{line_len, line_at, without_return, data_at};
ghost use Rattle.ty_memc.specs.Ends.{Ends};

use tc_base::{NotWhole, read_bytes};

/// The most bytes of a line with its line feed.
pub const LINE_MOST: usize = 2_048;

/// Where the first line feed stands, if that is among the bytes that a line may have. None stands in front of `from`.
pub fn find_feed(bytes: &[u8], from: usize) -> Option<usize>
    requires { from ≤ line_len bytes.now }
    ensures { MatchOption result (min 2048 (length bytes.now) ≤ line_len bytes.now) (λ n. (n ≡ line_len bytes.now) × (n < min 2048 (length bytes.now))) }
{
    for i in from..bytes.len().min(LINE_MOST) {
        if bytes[i] == b'\n' {
            return Some(i);
        }
    }
    None
}

/// A line without its end.
pub fn trimmed(line: &[u8]) -> &[u8]
    ensures { result.now ≡ without_return line.now }
{
    if line.ends_with(b"\r") {
        return &line[..line.len() - 1];
    }
    line
}

/// The bytes of a line that ends at a place, and what stands behind it.
pub fn split_line(bytes: &[u8], at: usize) -> (&[u8], &[u8])
    requires { at < length bytes.now }
    ensures line { result.0.now ≡ without_return (take at bytes.now) }
    ensures rest { result.1.now ≡ drop (at + 1) bytes.now }
{
    (trimmed(&bytes[..at]), &bytes[at + 1..])
}

// One byte.
fn read_byte(byte: u8, bytes: &[u8]) -> Result<((), &[u8]), NotWhole>
    ensures { Ends result byte bytes.now }
{
    match bytes {
        [] => Err(NotWhole::Part),
        [first, rest @ ..] => {
            if *first == byte {
                Ok(((), rest))
            } else {
                Err(NotWhole::Bad)
            }
        }
    }
}

/// So many bytes of a value that are ended as a line is, and what stands behind them.
pub fn read_data(size: usize, bytes: &[u8]) -> Result<(&[u8], &[u8]), NotWhole>
    ensures { Gives (λ x. (x.0.now, x.1.now)) result (data_at size bytes.now) }
{
    let (value, rest) = read_bytes(size, bytes)?;
    let (_, rest) = read_byte(b'\r', rest)?;
    let (_, rest) = read_byte(b'\n', rest)?;
    Ok((value, rest))
}
