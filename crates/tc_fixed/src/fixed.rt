//! A fixed-length file that is held open.
ghost use Rattle.tc_fixed.specs.Shapes.{HasShape};

use crate::cells::cell_len;
use crate::tally::Tally;
use std::alloc::Global;
use std::marker::PhantomData;

/// The number of the file.
pub const FILE: u32 = 0;

/// A map from ids to values of at most a width, in file 0 of a space. The values lie in the file alone; what is held here is the width, the
/// limit of the file's size, and what is counted of the map.
#[derive(Drop)]
pub struct Fixed<S> {
    pub(crate) alloc: Global,
    /// The most bytes of a value.
    pub(crate) width: u32,
    /// The limit of the file size.
    pub(crate) limit: u64,
    pub(crate) tally: Tally,
    /// Room for the bytes of one cell.
    pub(crate) buffer: Vec<u8>,
    pub(crate) of: PhantomData<S>,
    pub ghost shape: { HasShape width limit tally.greatest },
}

impl<S> Fixed<S> {
    ghost use Rattle.std.specs.Prelude.{◌≡◌, ℕ, ◌^◌, ◌≤◌, List, None, true, false};
    ghost use Rattle.std.specs.FinMap.{get, len};
    ghost use Rattle.tc_model.specs.Arrays.{Array, least, greatest};
    ghost use Rattle.tc_fixed.specs.Holding.{holds, max_id_of, width_of};
    ghost use Rattle.tc_fixed.specs.Tallies.{bytes_held};

    /// The most bytes of a value, 1 to 1,048,576.
    pub fn width(&self) -> u32
        ensures value { result ≡ width_of self.now }
        ensures some { 1 ≤ result }
        ensures most { result ≤ 1048576 }
    {
        self.width
    }

    /// The greatest id allowed.
    pub fn max_id(&self) -> u64
        ensures value { result ≡ max_id_of self.now }
        ensures most { result ≤ 2 ^ 40 }
    {
        (self.limit - 256) / cell_len(self.width)
    }

    /// The least id held, 0 where none is.
    pub fn least(&self) -> u64
        ensures value { (bytes : List ℕ) (m : Array) → holds self.now bytes m → result ≡ least m }
    {
        self.tally.least
    }

    /// The greatest id held, 0 where none is.
    pub fn greatest(&self) -> u64
        ensures value { (bytes : List ℕ) (m : Array) → holds self.now bytes m → result ≡ greatest m }
        ensures allowed { result ≤ max_id_of self.now }
    {
        self.tally.greatest
    }

    /// How many ids are held.
    pub fn count(&self) -> u64
        ensures value { (bytes : List ℕ) (m : Array) → holds self.now bytes m → result ≡ len m }
    {
        self.tally.records
    }

    /// The bytes of all ids as decimal texts, and of all values.
    pub fn size(&self) -> u64
        ensures value { (bytes : List ℕ) (m : Array) → holds self.now bytes m → result ≡ bytes_held m }
    {
        self.tally.size
    }

    /// Whether no id as this one is held.
    pub(crate) fn is_outside(&self, id: u64) -> bool
        ensures outside { (bytes : List ℕ) (m : Array) → holds self.now bytes m → result ≡ true → get m id ≡ None }
        ensures inside { result ≡ false → (1 ≤ id) × (id ≤ self.now.tally.greatest) }
    {
        if id == 0 {
            return true;
        }
        if id < self.tally.least {
            return true;
        }
        id > self.tally.greatest
    }
}
