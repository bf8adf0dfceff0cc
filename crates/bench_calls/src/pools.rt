//! Free blocks of a file in memory: what `bench/pool` times.

use crate::blocks::{file, pool};
use crate::turns::turn;
use anyhow::Error;
use std::alloc::Global;
use tc_memstores::OneFile;

/// Makes the file, lists its blocks, and takes and gives so many. Answers the bytes of the file, and the size of the pool, 0 where the blocks aren't listed.
pub fn make(alloc: Global, what: &str, count: &str, rest: &[String]) -> Result<(u64, u64), Error> {
    let bytes = file(alloc, count.parse()?)?;
    let size = bytes.len() as u64;
    if matches!(what, "make") {
        return Ok((size, 0));
    }
    let times = match rest.first() {
        Some(word) => word.parse()?,
        None => 0,
    };
    let mut space = OneFile::of(bytes.into_vec());
    let mut pool = pool(alloc, &mut space, size)?;
    turn(alloc, &mut pool, &mut space, times)?;
    Ok((size, pool.size()))
}
