use tc_base::Seq;

/// What the head of a block says.
#[derive(Clone, Copy, Debug, PartialEq, Eq)]
pub enum Block {
    /// A record.
    Rec {
        /// The second hash of its key.
        hash: u8,
        /// The place of its left subtree, shifted right by the alignment power; 0 for none. Below 2^32 but in the large form.
        left: u64,
        /// The place of its right subtree, shifted right by the alignment power; 0 for none. Below 2^32 but in the large form.
        right: u64,
        /// The bytes of padding behind its value.
        pad: u16,
        /// The bytes of its key.
        key: u64,
        /// The bytes of its value.
        value: u64,
        /// The bytes before its key.
        head: u64,
    },
    /// A free block.
    Free {
        /// Its bytes, its head counted, below 2^32.
        size: u64,
    },
}

/// Where a block stands in a file.
#[derive(Clone, Copy, PartialEq, Eq)]
pub struct BlockAt {
    /// The place of its first byte.
    pub place: u64,
    /// Its bytes.
    pub size: u64,
    /// Whether it is free.
    pub free: bool,
}

/// A list of blocks.
pub type Blocks = Seq<BlockAt>;
