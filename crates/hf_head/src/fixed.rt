//! The head of a fixed-length file.
ghost use Rattle.std.specs.Prelude.{◌≡◌, ◌<◌, ◌≤◌, ◌^◌, ◌⊎◌, ◌↔◌, IsTrue, MatchResult, Ok, Err};

use crate::errors::HeadErr;
use crate::layout::{MAGIC, has_magic, put_number, put_width};
use tc_base::{FILE_LIMIT_LEAST, FILE_MOST, WIDTH_MOST, get_le};

/// The head of a fixed-length file (type 2).
#[derive(Clone, Copy, PartialEq, Eq)]
pub struct FixedHead {
    /// The number of records.
    pub records: u64,
    /// The file size in bytes.
    pub size: u64,
    /// The most bytes of a value, 1 to 1,048,576.
    pub width: u32,
    /// The limit of the file size, 512 to 2^40.
    pub limit: u64,
    /// The least id held, or 0.
    pub least: u64,
    /// The greatest id held, or 0.
    pub greatest: u64,
}

impl FixedHead {
    ghost use Rattle.hf_head.specs.FixedHeads.{fixed_in, fixed_spelled, SpellsFixed, HasFixedNumbers, IsFixedRefused, cell, max_id};

    /// The head that 256 bytes spell. Each refusal is the first of its variants that is so; a power is none of them.
    pub fn read(bytes: &[u8; 256]) -> Result<FixedHead, HeadErr>
        ensures ok { (h : FixedHead) → (result ≡ Ok h) ↔ (HasFixedNumbers h × SpellsFixed h bytes.now) }
        ensures refused { (e : HeadErr) → (result ≡ Err e) ↔ IsFixedRefused e bytes.now }
    {
        let head = FixedHead::fields(bytes);
        FixedHead::judge(bytes, &head)?;
        Ok(head)
    }

    // The fields at their places.
    fn fields(bytes: &[u8; 256]) -> FixedHead
        ensures { result ≡ fixed_in bytes.now }
    {
        FixedHead {
            records: get_le(bytes, 48, 8),
            size: get_le(bytes, 56, 8),
            width: get_le(bytes, 64, 4) as u32,
            limit: get_le(bytes, 72, 8),
            least: get_le(bytes, 80, 8),
            greatest: get_le(bytes, 88, 8),
        }
    }

    // Whether bytes with these fields are a head.
    fn judge(bytes: &[u8; 256], head: &FixedHead) -> Result<(), HeadErr>
        requires { head.now ≡ fixed_in bytes.now }
        ensures { MatchResult result (λ _. HasFixedNumbers head.now × SpellsFixed head.now bytes.now) (λ e. IsFixedRefused e bytes.now) }
    {
        if !has_magic(bytes) {
            return Err(HeadErr::Magic);
        }
        if bytes[32] != 2 {
            return Err(HeadErr::Class);
        }
        if bytes[36] != 0 {
            return Err(HeadErr::Opts);
        }
        if !head.has_numbers() {
            return Err(HeadErr::Numbers);
        }
        Ok(())
    }

    fn has_numbers(&self) -> bool
        ensures { IsTrue result ↔ HasFixedNumbers self.now }
    {
        if self.width < 1 || self.width > WIDTH_MOST {
            return false;
        }
        if self.limit < FILE_LIMIT_LEAST || self.limit > FILE_MOST {
            return false;
        }
        if self.greatest > self.max_id() || !self.has_ids() {
            return false;
        }
        self.size == 256 + self.cell() * self.greatest
    }

    // Whether no id is held, or the least is from 1 to the greatest.
    fn has_ids(&self) -> bool
        ensures { IsTrue result ↔ ((self.now.least ≡ 0) × (self.now.greatest ≡ 0)) ⊎ ((1 ≤ self.now.least) × (self.now.least ≤ self.now.greatest)) }
    {
        if self.least == 0 {
            self.greatest == 0
        } else {
            self.least <= self.greatest
        }
    }

    /// The bytes of a cell: a size field of 1, 2 or 4 bytes, and the width.
    pub fn cell(&self) -> u64
        ensures value { result ≡ cell self.now.width }
        ensures some { 1 ≤ result }
        ensures most { result < 2 ^ 33 }
    {
        let width = u64::from(self.width);
        if width <= 255 {
            width + 1
        } else if width <= 65_535 {
            width + 2
        } else {
            width + 4
        }
    }

    /// The greatest id allowed.
    pub fn max_id(&self) -> u64
        requires { 256 ≤ self.now.limit }
        ensures { result ≡ max_id self.now }
    {
        (self.limit - 256) / self.cell()
    }

    /// The 256 bytes of the head: what no field names is zero.
    pub fn write(&self) -> [u8; 256]
        ensures bytes { result ≡ fixed_spelled self.now }
        ensures spells { SpellsFixed self.now result }
    {
        let mut bytes = [0; 256];
        bytes[..13].copy_from_slice(MAGIC);
        bytes[32] = 2;
        put_number(&mut bytes, 48, self.records);
        put_number(&mut bytes, 56, self.size);
        put_width(&mut bytes, 64, self.width);
        put_number(&mut bytes, 72, self.limit);
        put_number(&mut bytes, 80, self.least);
        put_number(&mut bytes, 88, self.greatest);
        bytes
    }
}
