//! Where two runs of bytes are alike, told by blocks.
ghost use Rattle.std.specs.Prelude.{◌≡◌, ◌≤◌, length, take, true};

/// How many bytes are compared as one.
pub const BLOCK: usize = 256;

// Whether they are equal.
fn are_alike(a: &[u8], b: &[u8]) -> bool
    ensures { result ≡ true → a.now ≡ b.now }
{
    a == b
}

/// How many bytes at the front lie in blocks that are alike.
pub fn alike_front(a: &[u8], b: &[u8]) -> usize
    requires { length a.now ≡ length b.now }
    ensures most { result ≤ length a.now }
    ensures same { take result a.now ≡ take result b.now }
{
    let mut n = 0;
    while n < a.len() {
        let size = BLOCK.min(a.len() - n);
        if !are_alike(&a[n..n + size], &b[n..n + size]) {
            return n;
        }
        n += size;
    }
    n
}

/// How many bytes at the front lie in blocks that differ.
pub fn differing_front(a: &[u8], b: &[u8]) -> usize
    requires { length a.now ≡ length b.now }
    ensures most { result ≤ length a.now }
{
    let mut n = 0;
    while n < a.len() {
        let size = BLOCK.min(a.len() - n);
        if are_alike(&a[n..n + size], &b[n..n + size]) {
            return n;
        }
        n += size;
    }
    n
}
