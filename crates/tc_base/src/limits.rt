//! The greatest sizes, counts and numbers, and their units.

/// The most bytes that a key, a prefix, a name, a path or a host has on the wire.
pub const KEY_MOST: usize = 1_048_576;

/// The most bytes that a value, or one argument of a misc request, has on the wire; and those of a value or a row text that is held.
pub const VALUE_MOST: usize = 16_777_216;

/// The most bytes of a whole request.
pub const REQUEST_MOST: usize = 33_554_432;

/// The most bytes of a whole reply, its first byte counted.
pub const REPLY_MOST: usize = 67_108_864;

/// The most bytes of a column's name, and of its value.
pub const COLUMN_MOST: usize = 1_048_576;

/// The most bytes of the label of a copy.
pub const LABEL_MOST: usize = 64;

/// The most columns that have an index.
pub const INDEXES_MOST: usize = 16;

/// The most connections of clients that are served at once.
pub const CLIENTS_MOST: usize = 64;

/// The most bytes of a file of the database but the undo log, where no other limit is given.
pub const FILE_MOST: u64 = 1_099_511_627_776;

/// The least bytes that a fixed-length file may be limited to.
pub const FILE_LIMIT_LEAST: u64 = 512;

/// The most bytes of the undo log.
pub const LOG_MOST: u64 = 4_611_686_018_427_387_904;

/// The numbers in a field of four bytes are below it.
pub const FOUR_BYTES_END: u64 = 4_294_967_296;

/// In a small hash file blocks start before this many units of alignment.
pub const SMALL_STARTS: u64 = 4_294_967_296;

/// The most buckets of a hash file.
pub const BUCKETS_MOST: u64 = 274_877_906_944;

/// The most bytes of a block of a hash file.
pub const BLOCK_MOST: u64 = 1_073_741_824;

/// The most bytes of a value in a fixed-length file.
pub const WIDTH_MOST: u32 = 1_048_576;

/// The greatest id of a fixed-length file; the least is 1.
pub const ID_MOST: u64 = 1_099_511_627_776;

/// The ids of a tree's pages are below it.
pub const PAGE_END: u64 = 281_474_976_710_656;
