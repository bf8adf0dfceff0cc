//! A file of records and free blocks in turn, and the pool of its free blocks.
ghost use Rattle.std.specs.Prelude.{◌≡◌, true, OnOk};
ghost use Rattle.hf_head.specs.Heads.{IsValid};

use anyhow::{Error, anyhow};
use hf_block::{walk, write_rec};
use hf_head::Head;
use hf_pool::Pool;
use std::alloc::{AllocError, Global};
use tc_base::Blob;
use tc_memstores::OneFile;

const FIRST: usize = 336;

// So many blocks: free ones of 32 to 272 bytes, and records of 16.
fn add_blocks(count: u64, into: &mut Blob) -> Result<(), AllocError> {
    let zeros = [0; 272];
    for i in 0..count {
        if i % 2 == 1 {
            write_rec(0x90, 0, 0, b"a", b"1", 16, false, into)?;
        } else {
            let units = 2 + i / 2 % 16;
            into.append(&[0xB0, (units * 16 % 256) as u8, (units / 16) as u8, 0, 0])?;
            into.append(&zeros[..units as usize * 16 - 5])?;
        }
    }
    Ok(())
}

/// A file of so many blocks.
pub fn file(alloc: Global, count: u64) -> Result<Blob, AllocError> {
    let mut bytes = Blob::new(alloc);
    bytes.append(&[0; FIRST])?;
    add_blocks(count, &mut bytes)?;
    Ok(bytes)
}

// The head of a hash file of three buckets that ends at a size.
fn head(size: u64) -> Head {
    Head {
        kind: 0,
        apow: 4,
        fpow: 0,
        options: 0,
        buckets: 3,
        records: 1,
        size,
        first: FIRST as u64,
        opaque: [0; 128],
    }
}

/// The pool of a space's free blocks, from the list of all its blocks.
pub fn pool(alloc: Global, space: &mut OneFile, size: u64) -> Result<Pool, Error>
    requires { space.old.sound ≡ true }
    ensures { OnOk result (space.new.sound ≡ true) }
{
    let Ok(head) = Head::read(&head(size).write()) else {
        return Err(anyhow!("the file has no head"));
    };
    let blocks = walk(alloc, space, 0, &head)?;
    let pool = Pool::build(alloc, &blocks, head.unit(), head.first, head.size)?;
    Ok(pool)
}
