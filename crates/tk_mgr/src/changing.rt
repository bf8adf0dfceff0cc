//! Tasks that change a database or its files, and print nothing.
ghost use Rattle.std.specs.Prelude.{◌≡◌, Some, None, IfOk, IsErrOf};
ghost use Rattle.tc_base.specs.declared.request.Request.TheVariants as request;
ghost use Rattle.tk_mgr.specs.Managing.{FormedFrom, MayManage, PacksTaskOf, form_for};
ghost use Rattle.tk_mgr.specs.Tasks.{put_request};
ghost use Rattle.tk_mgr.specs.declared.task.Task.TheVariants.{Optimize};
ghost use Rattle.ty_base.specs.Holding.{Frame, FullPack, Laid, no_layout};
ghost use Rattle.tc_space.specs.Frames.{Follows};
ghost use Rattle.tk_mgr.specs.Asking.{CarriesOf, FillsRequest, OnMgrFault};

use crate::asking::{change, save};
use crate::errors::MgrErr;
use std::alloc::{AllocError, Global};
use tc_base::{Blob, Blobs, Form, Key, Request};
use tc_space::Space;
use tk_words::PutWord;
use ty_base::Base;

// The call that adds a value beside those of its key.
fn dup_request(alloc: Global, key: Blob, value: Blob) -> Result<Request, AllocError>
    ensures { IfOk result (λ r. r ≡ put_request PutWord.Dup key value) }
{
    let name = Blob::from_slice(alloc, b"putdup")?;
    let mut args = Blobs::new(alloc);
    args.push(key)?;
    args.push(value)?;
    Ok(Request::Misc {
        name,
        options: 0,
        args,
    })
}

// The request that a put stands for.
fn request_of(alloc: Global, word: PutWord, key: Blob, value: Blob) -> Result<Request, AllocError>
    ensures { IfOk result (λ r. r ≡ put_request word key value) }
{
    match word {
        PutWord::Over => Ok(Request::Put {
            key: Key::new(key),
            value,
        }),
        PutWord::Keep => Ok(Request::PutKeep {
            key: Key::new(key),
            value,
        }),
        PutWord::Cat => Ok(Request::PutCat {
            key: Key::new(key),
            value,
        }),
        PutWord::Dup => dup_request(alloc, key, value),
    }
}

/// Gives a key a value.
pub fn put<B: Base>(
    alloc: Global,
    word: PutWord,
    key: Blob,
    value: Blob,
    base: &mut B,
    space: &mut B::S,
) -> Result<bool, MgrErr>
    requires may { MayManage B.S.Space B.holds B.reopens base.old space.old }
    ensures carries { CarriesOf B.S.Space B.holds B.reopens (Some (put_request word key value)) result base.old space.old space.new }
    ensures laid { (l : Frame) → CarriesOf B.S.Space B.holds (Laid B.own B.layout l B.reopens) (Some (put_request word key value)) result base.old space.old space.new }
    ensures full { FillsRequest B.S.Space B.holds B.fills_since (Some (put_request word key value)) result base.old space.old space.new }
    ensures not_sink { IsErrOf result MgrErr.Sink → ⊥ }
    ensures follows { Follows B.S.Space space.old space.new }
    ensures cause { OnMgrFault B.S.Space result space.old space.new }
{
    let mut reply = Blob::new(alloc);
    let request = request_of(alloc, word, key, value)?;
    change(base, space, request, &mut reply)
}

/// Takes a key out.
pub fn take_out<B: Base>(
    alloc: Global,
    key: Blob,
    base: &mut B,
    space: &mut B::S,
) -> Result<bool, MgrErr>
    requires may { MayManage B.S.Space B.holds B.reopens base.old space.old }
    ensures carries { CarriesOf B.S.Space B.holds B.reopens (Some (request.Out key)) result base.old space.old space.new }
    ensures laid { (l : Frame) → CarriesOf B.S.Space B.holds (Laid B.own B.layout l B.reopens) (Some (request.Out key)) result base.old space.old space.new }
    ensures full { FillsRequest B.S.Space B.holds B.fills_since (Some (request.Out key)) result base.old space.old space.new }
    ensures not_sink { IsErrOf result MgrErr.Sink → ⊥ }
    ensures follows { Follows B.S.Space space.old space.new }
    ensures cause { OnMgrFault B.S.Space result space.old space.new }
{
    let mut reply = Blob::new(alloc);
    let key = Key::new(key);
    change(base, space, Request::Out { key }, &mut reply)
}

// The form that files are packed in.
fn form_of(large: bool) -> Form
    ensures { result ≡ form_for large }
{
    if large { Form::Large } else { Form::Keep }
}

/// Packs the files, in the large form where `large` says so, and keeps them. Those beside them stay.
pub fn optimize<B: Base>(large: bool, base: &mut B, space: &mut B::S) -> Result<bool, MgrErr>
    requires may { MayManage B.S.Space B.holds B.reopens base.old space.old }
    ensures carries { CarriesOf B.S.Space B.holds B.reopens None result base.old space.old space.new }
    ensures laid { (l : Frame) → CarriesOf B.S.Space B.holds (Laid B.own no_layout l B.reopens) None result base.old space.old space.new }
    ensures packs { PacksTaskOf B.S.Space B.holds B.reopens (B.packed (B.S.now space.old)) (Optimize large) result base.old space.old space.new }
    ensures formed { PacksTaskOf B.S.Space B.holds B.reopens (FormedFrom B.layout (B.S.now space.old)) (Optimize large) result base.old space.old space.new }
    ensures full { IsErrOf result MgrErr.Full → FullPack B.S.Space B.holds B.lacks_large (form_for large) base.old space.old space.new }
    ensures not_sink { IsErrOf result MgrErr.Sink → ⊥ }
    ensures follows { Follows B.S.Space space.old space.new }
    ensures cause { OnMgrFault B.S.Space result space.old space.new }
{
    base.pack(space, form_of(large))?;
    save(base, space, true)?;
    Ok(true)
}
