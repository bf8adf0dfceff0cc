//! The header and the frame of an entry, as bytes.
ghost use Rattle.std.specs.Prelude.{◌≡◌, ◌+◌, ◌≤◌, ◌<◌, ◌++◌, true, length, take, drop};
ghost use Rattle.ud_log.specs.Log.{spelled, framed, magic, numbers_bytes};
ghost use Rattle.ud_log.specs.Undo.{is_data, place_of};

/// How many data files there are.
pub const DATA_FILES: usize = 18;

/// The bytes of the magic word and the lengths.
pub const HEADER: usize = 152;

fn four(n: u32) -> [u8; 4]
    ensures { result ≡ spelled 4 n }
{
    [
        (n % 256) as u8,
        (n / 256 % 256) as u8,
        (n / 256 / 256 % 256) as u8,
        (n / 256 / 256 / 256 % 256) as u8,
    ]
}

fn eight(n: u64) -> [u8; 8]
    ensures { result ≡ spelled 8 n }
{
    [
        (n % 256) as u8,
        (n / 256 % 256) as u8,
        (n / 256 / 256 % 256) as u8,
        (n / 256 / 256 / 256 % 256) as u8,
        (n / 256 / 256 / 256 / 256 % 256) as u8,
        (n / 256 / 256 / 256 / 256 / 256 % 256) as u8,
        (n / 256 / 256 / 256 / 256 / 256 / 256 % 256) as u8,
        (n / 256 / 256 / 256 / 256 / 256 / 256 / 256 % 256) as u8,
    ]
}

fn head(file: u32, at: u64, n: u32) -> [u8; 16]
    ensures { result ≡ spelled 4 file ++ spelled 8 at ++ spelled 4 n }
{
    let f = four(file);
    let a = eight(at);
    let n = four(n);
    [
        f[0], f[1], f[2], f[3], a[0], a[1], a[2], a[3], a[4], a[5], a[6], a[7], n[0], n[1], n[2],
        n[3],
    ]
}

/// Puts the numbers of an entry round the `n` old bytes that stand from byte 16 on.
pub fn frame(entry: &mut [u8; 4116], file: u32, at: u64, n: u32)
    requires { n ≤ 4096 }
    ensures { take (20 + n) entry.new ≡ framed file at (take n (drop 16 entry.old)) }
{
    entry[..16].copy_from_slice(&head(file, at, n));
    entry[16 + n as usize..20 + n as usize].copy_from_slice(&four(n));
}

/// The place of a data file's item in an array of 18.
pub fn place(file: u32) -> usize
    requires { is_data file ≡ true }
    ensures place { result ≡ place_of file }
    ensures low { result < 18 }
{
    if file == 0 { 0 } else { file as usize - 1 }
}

/// The data file of an item in an array of 18.
pub fn file_at(place: usize) -> u32
    requires { place < 18 }
    ensures place { place_of result ≡ place }
    ensures is_data { is_data result ≡ true }
    ensures low { result ≤ 18 }
{
    if place == 0 { 0 } else { place as u32 + 1 }
}

/// The front of a log that records these lengths.
pub fn header_of(lens: &[u64; 18]) -> [u8; 152]
    ensures { result ≡ magic ++ numbers_bytes lens.now }
{
    let mut bytes = [0u8; HEADER];
    bytes[..8].copy_from_slice(b"TKundo01");
    for i in 0..DATA_FILES {
        bytes[8 + 8 * i..16 + 8 * i].copy_from_slice(&eight(lens[i]));
    }
    bytes
}
