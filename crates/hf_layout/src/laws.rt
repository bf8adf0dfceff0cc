//! Laws on the blocks of a file, as functions whose contracts they are.
ghost use Rattle.hf_layout.specs.Laws.{LentIsBlock, BlockStands, RecordIsBlock, PoolLiesInside, RecordHasBytes, FreeIsBlock, PlacesAreAligned, ListedHaveWidth};

/// A block that is lent out stands in the file.
pub fn lent_is_a_block()
    ensures { LentIsBlock }
{}

/// A block of the file has a block's size, lies inside, and where it isn't the pool's meets no free block of the pool.
pub fn block_stands()
    ensures { BlockStands }
{}

/// A record is a block of the file, neither the pool's nor lent out.
pub fn record_is_a_block()
    ensures { RecordIsBlock }
{}

/// The pool's free blocks lie in the file.
pub fn pool_lies_inside()
    ensures { PoolLiesInside }
{}

/// The bytes of a record stand at its place.
pub fn record_has_bytes()
    ensures { RecordHasBytes }
{}

/// A free block of the pool is a block of the file.
pub fn free_is_a_block()
    ensures { FreeIsBlock }
{}

/// The places of blocks are multiples of the unit.
pub fn places_are_aligned()
    ensures { PlacesAreAligned }
{}

/// Where blocks of one form were listed, each record has its chains.
pub fn listed_have_width()
    ensures { ListedHaveWidth }
{}
