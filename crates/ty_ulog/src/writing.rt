//! An update record as bytes.
ghost use Rattle.std.specs.Prelude.{◌≡◌, ◌++◌, ◌<◌, ◌^◌, OnOk, OnErr, length};
ghost use Rattle.std.specs.Int.{w16, w32, to_be_bytes};
ghost use Rattle.ty_wire.specs.Spelling.{size};
ghost use Rattle.ty_wire.specs.Form.{long_bytes};
ghost use Rattle.ty_ulog.specs.Records.{Begins, Fits, record_bytes, seen};

use crate::record::{Record, RecordRef};
use std::alloc::AllocError;
use tc_base::Blob;

// Adds eight bytes.
#[tactic(auto, using(crate::proofs::Begun::begins_err, crate::proofs::Begun::begins_first))]
fn put_long(number: u64, into: &mut Blob) -> Result<(), AllocError>
    ensures ok { OnOk result (into.new ≡ into.old ++ long_bytes number) }
    ensures err { OnErr result (Begins into.old into.new (long_bytes number)) }
{
    let upper = (number / 4_294_967_296) as u32;
    let lower = (number % 4_294_967_296) as u32;
    into.append(&upper.to_be_bytes())?;
    into.append(&lower.to_be_bytes())
}

// Adds an id.
fn put_id(id: u16, into: &mut Blob) -> Result<(), AllocError>
    ensures ok { OnOk result (into.new ≡ into.old ++ to_be_bytes w16 id) }
    ensures err { OnErr result (into.new ≡ into.old) }
{
    into.append(&id.to_be_bytes())
}

// Adds a size.
fn put_size(n: usize, into: &mut Blob) -> Result<(), AllocError>
    requires { n < 2 ^ 32 }
    ensures ok { OnOk result (into.new ≡ into.old ++ to_be_bytes w32 n) }
    ensures err { OnErr result (into.new ≡ into.old) }
{
    into.append(&(n as u32).to_be_bytes())
}

// Adds a text with its size in front.
#[tactic(auto, using(crate::proofs::Begun::begins_err, crate::proofs::Begun::begins_first))]
fn put_text(text: &[u8], into: &mut Blob) -> Result<(), AllocError>
    requires { length text.now < 2 ^ 32 }
    ensures ok { OnOk result (into.new ≡ into.old ++ (size text.now ++ text.now)) }
    ensures err { OnErr result (Begins into.old into.new (size text.now ++ text.now)) }
{
    put_size(text.len(), into)?;
    into.append(text)
}

/// Adds a record whose request lies elsewhere, or a front of it where memory ran out.
#[tactic(auto, unfolding(crate::specs::Records::record_bytes))]
pub fn put_seen(r: RecordRef<'_>, into: &mut Blob) -> Result<(), AllocError>
    requires { Fits (seen r) }
    ensures ok { OnOk result (into.new ≡ into.old ++ record_bytes (seen r.entry)) }
    ensures err { OnErr result (Begins into.old into.new (record_bytes (seen r.entry))) }
{
    into.push(0xC9)?;
    put_long(r.stamp, into)?;
    put_long(r.before, into)?;
    put_id(r.server, into)?;
    put_id(r.master, into)?;
    put_text(r.request, into)?;
    Ok(())
}

/// Adds the record, or a front of it where memory ran out.
#[tactic(auto, using(crate::proofs::Begun::begins_as))]
pub fn put_record(r: &Record, into: &mut Blob) -> Result<(), AllocError>
    requires { Fits r.now }
    ensures ok { OnOk result (into.new ≡ into.old ++ record_bytes r.now) }
    ensures err { OnErr result (Begins into.old into.new (record_bytes r.now)) }
{
    let seen = RecordRef {
        stamp: r.stamp,
        before: r.before,
        server: r.server,
        master: r.master,
        request: r.request.as_slice(),
    };
    put_seen(seen, into)
}
