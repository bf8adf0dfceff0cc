//! The head of a hash, tree or table file.
ghost use Rattle.std.specs.Prelude.{◌≡◌, ◌≤◌, ◌^◌, ◌↔◌, ◌+◌, ◌*◌, IsTrue, MatchResult, Ok, Err};

use crate::errors::HeadErr;
use crate::layout::{MAGIC, has_magic, put_number};
use tc_base::{BUCKETS_MOST, FILE_MOST, get_le};

/// The head of a hash file (type 0), a tree file (type 1) or a table file (type 3).
#[derive(Clone, Copy, PartialEq, Eq)]
pub struct Head {
    /// The type: 0, 1 or 3.
    pub kind: u8,
    /// The alignment power, 4 to 16: blocks are multiples of 2 to this power.
    pub apow: u8,
    /// The free pool power, 0 to 20: the pool section has 64 + 4 × 2 to this power bytes.
    pub fpow: u8,
    /// The options: 0, or 1 for the large form, whose bucket entries and chains have 8 bytes and not 4.
    pub options: u8,
    /// The number of buckets, 1 to 2^38.
    pub buckets: u64,
    /// The number of records.
    pub records: u64,
    /// The file size in bytes, up to 2^40: where the blocks end.
    pub size: u64,
    /// The place of the first block.
    pub first: u64,
    /// Bytes that belong to who made the file.
    pub opaque: [u8; 128],
}

impl Head {
    ghost use Rattle.hf_head.specs.Heads.{head_in, spelled, Spells, IsKind, HasPowers, HasNumbers, HasKnownOptions, IsValid, IsRefused, is_large, sections, wide};

    /// The head that 256 bytes spell. Each refusal is the first of its variants that is so.
    pub fn read(bytes: &[u8; 256]) -> Result<Head, HeadErr>
        ensures ok { (h : Head) → (result ≡ Ok h) ↔ (IsValid h × Spells h bytes.now) }
        ensures refused { (e : HeadErr) → (result ≡ Err e) ↔ IsRefused e bytes.now }
    {
        let head = Head::fields(bytes);
        Head::judge(bytes, &head)?;
        Ok(head)
    }

    // The fields at their places.
    fn fields(bytes: &[u8; 256]) -> Head
        ensures { result ≡ head_in bytes.now }
    {
        let mut opaque = [0; 128];
        opaque.copy_from_slice(&bytes[128..256]);
        Head {
            kind: bytes[32],
            apow: bytes[34],
            fpow: bytes[35],
            options: bytes[36],
            buckets: get_le(bytes, 40, 8),
            records: get_le(bytes, 48, 8),
            size: get_le(bytes, 56, 8),
            first: get_le(bytes, 64, 8),
            opaque,
        }
    }

    // Whether bytes with these fields are a head.
    fn judge(bytes: &[u8; 256], head: &Head) -> Result<(), HeadErr>
        requires { head.now ≡ head_in bytes.now }
        ensures { MatchResult result (λ _. IsValid head.now × Spells head.now bytes.now) (λ e. IsRefused e bytes.now) }
    {
        if !has_magic(bytes) {
            return Err(HeadErr::Magic);
        }
        if !head.has_kind() {
            return Err(HeadErr::Class);
        }
        if !head.has_powers() {
            return Err(HeadErr::Power);
        }
        if !head.has_known_options() {
            return Err(HeadErr::Opts);
        }
        if !head.has_numbers() {
            return Err(HeadErr::Numbers);
        }
        Ok(())
    }

    fn has_kind(&self) -> bool
        ensures { IsTrue result ↔ IsKind self.now }
    {
        self.kind == 0 || self.kind == 1 || self.kind == 3
    }

    fn has_powers(&self) -> bool
        ensures { IsTrue result ↔ HasPowers self.now }
    {
        self.apow >= 4 && self.apow <= 16 && self.fpow <= 20
    }

    fn has_known_options(&self) -> bool
        ensures { IsTrue result ↔ HasKnownOptions self.now }
    {
        self.options == 0 || self.options == 1
    }

    /// Whether it is the head of a file in the large form.
    pub fn is_large(&self) -> bool
        ensures { result ≡ is_large self.now }
    {
        self.options == 1
    }

    /// The bytes of a bucket entry and of a chain: 4, in the large form 8.
    pub fn width(&self) -> u64
        ensures value { result ≡ wide (is_large self.now) }
        ensures most { result ≤ 8 }
    {
        if self.is_large() { 8 } else { 4 }
    }

    // The least place of the first block.
    fn behind_sections(&self) -> u64
        requires buckets { self.now.buckets ≤ 2 ^ 38 }
        requires fpow { self.now.fpow ≤ 20 }
        ensures { result ≡ sections self.now }
    {
        256 + self.width() * self.buckets + (64 + (4 << self.fpow))
    }

    fn has_numbers(&self) -> bool
        requires apow { self.now.apow ≤ 16 }
        requires fpow { self.now.fpow ≤ 20 }
        ensures { IsTrue result ↔ HasNumbers self.now }
    {
        if self.buckets < 1 || self.buckets > BUCKETS_MOST {
            return false;
        }
        let unit = self.unit();
        if self.first % unit != 0 || self.first < self.behind_sections() {
            return false;
        }
        self.size % unit == 0 && self.size >= self.first && self.size <= FILE_MOST
    }

    /// The unit of blocks in bytes.
    pub fn unit(&self) -> u64
        requires { self.now.apow ≤ 16 }
        ensures { result ≡ 2 ^ self.now.apow }
    {
        1 << self.apow
    }

    /// The 256 bytes of the head: what no field names is zero.
    pub fn write(&self) -> [u8; 256]
        ensures bytes { result ≡ spelled self.now }
        ensures spells { Spells self.now result }
    {
        let mut bytes = [0; 256];
        bytes[..13].copy_from_slice(MAGIC);
        bytes[32] = self.kind;
        bytes[34] = self.apow;
        bytes[35] = self.fpow;
        bytes[36] = self.options;
        put_number(&mut bytes, 40, self.buckets);
        put_number(&mut bytes, 48, self.records);
        put_number(&mut bytes, 56, self.size);
        put_number(&mut bytes, 64, self.first);
        bytes[128..256].copy_from_slice(&self.opaque);
        bytes
    }
}
