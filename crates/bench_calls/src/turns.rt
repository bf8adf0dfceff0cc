//! Blocks of a pool taken and given back.
ghost use Rattle.std.specs.Prelude.{◌≡◌, true, OnOk};

use hf_pool::Pool;
use std::alloc::{AllocError, Global};
use tc_memstores::OneFile;
use tc_space::RecErr;

// How many blocks are out at a time.
const OUT: u64 = 1000;

/// A block that is out; a size of 0 is none.
#[derive(Clone, Copy)]
struct Out {
    place: u64,
    size: u64,
}

// Takes a block of that size.
fn take(pool: &mut Pool, space: &mut OneFile, size: u64) -> Result<u64, RecErr>
    requires { space.old.sound ≡ true }
    ensures { OnOk result (space.new.sound ≡ true) }
{
    if size == 0 || size % pool.unit() != 0 || pool.size() > u64::MAX - size {
        return Err(RecErr::Full);
    }
    pool.take(space, 0, size, u64::MAX)
}

// Gives a block back, if it is one.
fn give(pool: &mut Pool, space: &mut OneFile, out: Out) -> Result<(), RecErr>
    requires { space.old.sound ≡ true }
    ensures { OnOk result (space.new.sound ≡ true) }
{
    let Out { place, size } = out;
    if size == 0 || size >= 1 << 32 {
        return Ok(());
    }
    if place % pool.unit() != 0 || size % pool.unit() != 0 {
        return Err(RecErr::Full);
    }
    if place > pool.size() || size > pool.size() - place || !pool.meets_none(place, size) {
        return Err(RecErr::Full);
    }
    pool.give(space, 0, place, size)
}

// None is out.
fn none_out(alloc: Global) -> Result<Vec<Out>, AllocError> {
    let mut outs = Vec::new(alloc);
    for _ in 0..OUT {
        outs.push(Out { place: 0, size: 0 })?;
    }
    Ok(outs)
}

/// So many times a block is taken, and one that was taken 1,000 times before is given back.
pub fn turn(alloc: Global, pool: &mut Pool, space: &mut OneFile, times: u64) -> Result<(), RecErr>
    requires { space.old.sound ≡ true }
{
    let mut outs = none_out(alloc)?;
    let mut seed: u64 = 1;
    for i in 0..times {
        seed = seed
            .wrapping_mul(6364136223846793005)
            .wrapping_add(1442695040888963407);
        let size = 16 * (1 + (seed >> 33) % 16);
        let at = (i % OUT) as usize;
        if let Some(out) = outs.get_mut(at) {
            let old = *out;
            *out = Out {
                place: take(pool, space, size)?,
                size,
            };
            give(pool, space, old)?;
        }
    }
    Ok(())
}
