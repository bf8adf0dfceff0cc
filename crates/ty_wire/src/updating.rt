//! Which requests change contents.
ghost use Rattle.std.specs.Prelude.{◌≡◌, ◌↔◌, IsTrue, Contains, codes};
ghost use Rattle.ty_wire.specs.Updating.{IsUpdating, IsUpdatingCall, IsUpdatingName};

use tc_base::{Blob, Request};

fn is(name: &[u8], text: &[u8]) -> bool
    ensures { IsTrue result ↔ (name.now ≡ text.now) }
{
    name == text
}

// Whether a misc of this name stores.
fn stores(name: &[u8]) -> bool
    ensures { IsTrue result ↔ IsUpdatingName name.now }
{
    is(name, b"put")
        || is(name, b"putkeep")
        || is(name, b"putcat")
        || is(name, b"out")
        || is(name, b"putlist")
        || is(name, b"outlist")
        || is(name, b"putdup")
        || is(name, b"vanish")
        || is(name, b"setindex")
}

// Whether `out` is among the arguments.
fn has_out(args: &[Blob]) -> bool
    ensures { IsTrue result ↔ Contains args.now (codes "out") }
{
    for arg in args {
        if is(arg.as_slice(), b"out") {
            return true;
        }
    }
    false
}

/// Whether a misc of this name changes contents where it succeeds: `search` does where `out` is among its arguments.
#[inline(never)]
pub fn is_updating_call(name: &[u8], args: &[Blob]) -> bool
    ensures { IsTrue result ↔ IsUpdatingCall name.now args.now }
{
    stores(name) || (is(name, b"search") && has_out(args))
}

/// Whether a request changes contents where it succeeds; of a misc `is_updating_call` says so.
#[inline(always)]
pub fn is_updating(r: &Request) -> bool
    ensures { IsTrue result ↔ IsUpdating r.now }
{
    match r {
        Request::Put { .. }
        | Request::PutKeep { .. }
        | Request::PutCat { .. }
        | Request::PutShl { .. }
        | Request::PutNr { .. }
        | Request::Out { .. }
        | Request::AddInt { .. }
        | Request::Vanish => true,
        Request::Misc { name, args, .. } => is_updating_call(name.as_slice(), args.as_slice()),
        Request::Get { .. }
        | Request::MGet { .. }
        | Request::Vsiz { .. }
        | Request::IterInit
        | Request::IterNext
        | Request::FwmKeys { .. }
        | Request::AddDouble { .. }
        | Request::Ext { .. }
        | Request::Sync
        | Request::Optimize { .. }
        | Request::Copy { .. }
        | Request::Restore { .. }
        | Request::SetMst { .. }
        | Request::Rnum
        | Request::Size
        | Request::Stat
        | Request::Repl { .. } => false,
    }
}
