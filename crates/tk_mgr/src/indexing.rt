//! Indexes of tables made and taken away.
ghost use Rattle.std.specs.Prelude.{◌≡◌, Some, IfOk, IsErrOf};
ghost use Rattle.tc_space.specs.Frames.{Follows};
ghost use Rattle.ty_base.specs.Holding.{Frame, Laid};
ghost use Rattle.tk_mgr.specs.Asking.{CarriesOf, FillsRequest, OnMgrFault};
ghost use Rattle.tk_mgr.specs.Managing.{MayManage};
ghost use Rattle.tk_mgr.specs.Tasks.{index_request};

use crate::asking::change;
use crate::errors::MgrErr;
use itoa::Buffer;
use std::alloc::{AllocError, Global};
use tc_base::{Blob, Blobs, Request};
use tc_space::Space;
use ty_base::Base;

// The call that gives a column an index, or takes it away.
fn index_call(alloc: Global, column: Blob, code: u16) -> Result<Request, AllocError>
    ensures { IfOk result (λ r. r ≡ index_request column code) }
{
    let mut buffer = Buffer::new();
    let name = Blob::from_slice(alloc, b"setindex")?;
    let text = Blob::from_slice(alloc, buffer.format(code).as_bytes())?;
    let mut args = Blobs::new(alloc);
    args.push(column)?;
    args.push(text)?;
    Ok(Request::Misc {
        name,
        options: 0,
        args,
    })
}

/// Gives a column an index, or takes it away.
pub fn set_index<B: Base>(
    alloc: Global,
    column: Blob,
    code: u16,
    base: &mut B,
    space: &mut B::S,
) -> Result<bool, MgrErr>
    requires may { MayManage B.S.Space B.holds B.reopens base.old space.old }
    ensures carries { CarriesOf B.S.Space B.holds B.reopens (Some (index_request column code)) result base.old space.old space.new }
    ensures laid { (l : Frame) → CarriesOf B.S.Space B.holds (Laid B.own B.layout l B.reopens) (Some (index_request column code)) result base.old space.old space.new }
    ensures full { FillsRequest B.S.Space B.holds B.fills_since (Some (index_request column code)) result base.old space.old space.new }
    ensures not_sink { IsErrOf result MgrErr.Sink → ⊥ }
    ensures follows { Follows B.S.Space space.old space.new }
    ensures cause { OnMgrFault B.S.Space result space.old space.new }
{
    let mut reply = Blob::new(alloc);
    let request = index_call(alloc, column, code)?;
    change(base, space, request, &mut reply)
}
