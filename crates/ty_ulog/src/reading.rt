//! The update record at the front of bytes.
ghost use Rattle.std.specs.Prelude.{◌≡◌, ◌≤◌, ℕ, List, length, take, IfOk, IfSome, Some};
ghost use Rattle.tc_base.specs.Reading.{Gives};
ghost use Rattle.ty_wire.specs.Reading.{values_at};
ghost use Rattle.ty_ulog.specs.declared.record.Record.{Record};
ghost use Rattle.ty_ulog.specs.Records.{fields, heads_at, record_of, record_at, record_bytes, seen, Fits, TakesRecord, HasOneRecord, IsReadRecord, IsReadAs, head_at};
ghost use Rattle.ty_ulog.specs.Pieces.{head_of};

use crate::record::{Record, RecordRef};
use std::alloc::{AllocError, Global};
use tc_base::{NotWhole, REQUEST_MOST, read_bytes, read_size};
use ty_wire::{Read, long_of, word_of};

/// What stands at the front of bytes.
#[derive(Clone, Copy, PartialEq, Eq)]
pub enum RecTake {
    /// A whole record of that many bytes.
    Whole(usize),
    /// Less than a record: some bytes behind it make it whole.
    Part,
    /// Neither: no record begins so.
    Bad,
}

/// What a record's head says of it.
#[derive(Clone, Copy)]
pub struct Head {
    pub stamp: u64,
    pub before: u64,
    /// How many bytes the record has, its head's counted.
    pub size: usize,
}

/// How many bytes a record has in front of its request.
pub const HEAD_SIZE: usize = 25;

// The two timestamps, the two ids in one, and the size of the request.
fn heads_of(bytes: &[u8]) -> Read<'_, (u64, u64, u32, usize)>
    ensures read { Gives (λ x. ((x.0.0, (x.0.1, (x.0.2, (x.0.3, tt)))), x.1.now)) result (heads_at bytes.now) }
    ensures small { IfOk result (λ x. x.0.3 ≤ 33554432) }
{
    let (stamp, rest) = long_of(bytes)?;
    let (before, rest) = long_of(rest)?;
    let (ids, rest) = word_of(rest)?;
    let (size, rest) = read_size(REQUEST_MOST, rest)?;
    Ok(((stamp, before, ids, size), rest))
}

fn fields_of(bytes: &[u8]) -> Read<'_, (u64, u64, u32, &[u8])>
    ensures { Gives (λ x. ((x.0.0, (x.0.1, (x.0.2, (x.0.3.now, tt)))), x.1.now)) result (values_at fields bytes.now) }
{
    let ((stamp, before, ids, size), rest) = heads_of(bytes)?;
    let (request, rest) = read_bytes(size, rest)?;
    Ok(((stamp, before, ids, request), rest))
}

// The fields of the record at the front.
#[tactic(auto, unfolding(crate::specs::Records::record_at))]
fn front_of(bytes: &[u8]) -> Read<'_, (u64, u64, u32, &[u8])>
    ensures { Gives (λ x. (record_of (x.0.0, (x.0.1, (x.0.2, (x.0.3.now, tt)))), x.1.now)) result (record_at bytes.now) }
{
    match bytes {
        [] => Err(NotWhole::Part),
        [0xC9, rest @ ..] => fields_of(rest),
        _ => Err(NotWhole::Bad),
    }
}

/// What stands at the front, by the grammar. It looks at sizes alone, whatever the length of the request; it doesn't look at the request.
pub fn take_record(bytes: &[u8]) -> RecTake
    ensures grammar { TakesRecord bytes.now result }
    ensures reading { IsReadRecord bytes.now result }
    ensures alone { HasOneRecord bytes.now }
{
    match front_of(bytes) {
        Ok((_, rest)) => RecTake::Whole(bytes.len() - rest.len()),
        Err(NotWhole::Part) => RecTake::Part,
        Err(NotWhole::Bad) => RecTake::Bad,
    }
}

// The record of fields that were read.
fn record_ref(stamp: u64, before: u64, ids: u32, request: &[u8]) -> RecordRef<'_>
    ensures { seen result ≡ record_of (stamp, (before, (ids, (request.now, tt)))) }
{
    RecordRef {
        stamp,
        before,
        server: (ids / 65_536) as u16,
        master: (ids % 65_536) as u16,
        request,
    }
}

/// The record at the front of bytes that begin with a whole one. Nothing is copied.
pub fn look_record(bytes: &[u8]) -> RecordRef<'_>
    requires { (r : Record) × (rest : List ℕ) × IsReadAs bytes.now r rest }
    ensures { (rest : List ℕ) × IsReadAs bytes.now (seen result) rest }
{
    match front_of(bytes) {
        Ok(((stamp, before, ids, request), _)) => record_ref(stamp, before, ids, request),
        Err(_) => unreachable!(),
    }
}

/// A copy of the record at the front of bytes that begin with a whole one.
pub fn read_record(alloc: Global, bytes: &[u8]) -> Result<Record, AllocError>
    requires { (r : Record) × (rest : List ℕ) × IsReadAs bytes.now r rest }
    ensures { IfOk result (λ r. (rest : List ℕ) × IsReadAs bytes.now r rest) }
{
    look_record(bytes).to_record(alloc)
}

// The two timestamps, the two ids in one, and the size of the request, behind the first byte.
#[tactic(auto, unfolding(crate::specs::Records::head_at))]
fn numbers_of(bytes: &[u8]) -> Read<'_, (u64, u64, u32, usize)>
    ensures read { Gives (λ x. ((x.0.0, (x.0.1, (x.0.2, (x.0.3, tt)))), x.1.now)) result (head_at bytes.now) }
    ensures small { IfOk result (λ x. x.0.3 ≤ 33554432) }
{
    match bytes {
        [] => Err(NotWhole::Part),
        [0xC9, rest @ ..] => heads_of(rest),
        _ => Err(NotWhole::Bad),
    }
}

/// The head of the record that begins with these 25 bytes, if one does.
pub fn measure(bytes: &[u8]) -> Option<Head>
    requires { length bytes.now ≡ 25 }
    ensures some { IfSome result (λ head. (25 ≤ head.size) × (head.size ≤ 33554457)) }
    ensures record { (r : Record) → Fits r → bytes.now ≡ take 25 (record_bytes r) → result ≡ Some (head_of r) }
{
    match numbers_of(bytes) {
        Ok(((stamp, before, _, size), _)) => Some(Head {
            stamp,
            before,
            size: HEAD_SIZE + size,
        }),
        Err(_) => None,
    }
}
