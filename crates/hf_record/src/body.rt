//! What is held in memory of a hash file's records.
ghost use Rattle.std.specs.Prelude.{◌≡◌};
ghost use Rattle.hf_head.specs.Heads.{unit};
ghost use Rattle.hf_record.specs.Fields.{HasFields, IsFile};

use hf_head::Head;
use hf_pool::Pool;
use std::alloc::Global;

/// What is held in memory of a hash file's records, which lie in the file alone.
#[derive(Drop)]
pub struct Body {
    pub alloc: Global,
    /// The number of the file.
    pub file: u32,
    /// The head that the file was opened or made with. Its size, number of records and region are those of then.
    pub head: Head,
    /// The free blocks, and where the blocks end.
    pub pool: Pool,
    pub ghost data: { IsFile file },
    pub ghost valid: { HasFields head },
    pub ghost unit_is: { pool.unit ≡ unit head },
}
